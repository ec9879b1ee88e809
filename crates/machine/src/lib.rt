#![tactic(auto)]

ghost use Rattle.std.specs.Prelude.{◌≡◌, true, false, List, ℕ, eqb};
ghost use Rattle.memory.specs.Memory.{memories};
ghost use Rattle.steps.specs.Steps.{is_width, malformed};
ghost use Rattle.machine.specs.Machines.{settings_of, edition_of, with_registers, with_halted, with_config, with_settings, with_segments, segment_in, with_segment, reset_machine};
ghost use Rattle.machine.specs.Outcomes.{gives, ends};
ghost use Rattle.machine.specs.Service.{entered_machine, entry, entry_at_boundary, entry_by_smint, taken, passed, boundary_step, resume};
ghost use Rattle.machine.specs.Steps.{window, reset_step, registers_step, read_step, write_step, port_step, port_read_step, port_write_step, halt_step, wake_step, permitted, valid, operation_on, advanced, saved, restored, smhr_stored, smhr_loaded, operated, opcode_step, performed, stepped};

use config::{Accessed, Config};
use header::{Level, Registers, Saved};
use memory::Segment;
use opcodes::Operation;
use region::Region;
use segments::{SegmentName, Segments};
use settings::{Edition, Settings};
use steps::{Answer, Interruption, Step};

#[derive(Clone, Copy)]
pub struct Machine {
    pub registers: Registers,
    pub segments: Segments,
    pub halted: bool,
    pub inside: bool,
    pub latched: bool,
    pub config: Config,
}

// The next machine, beside the answer. The rules name both fields, so it is no pair.
#[derive(Clone, Copy)]
pub struct Stepped {
    pub machine: Machine,
    pub answer: Answer,
}

impl Machine {
    // The machine of an edition after a reset, from which a program starts.
    #[tactic(auto, unfolding(crate::specs::Machines::reset_machine))]
    pub fn initial(edition: Edition) -> Machine
        ensures { result ≡ reset_machine edition }
    {
        Machine {
            registers: Registers {
                eip: 0xFFF0,
                eflags: 2,
                cr0: 0x60000010,
                dr7: 0x400,
                cs: memory::segment_of(0xF000, 0xFF0093FF0000FFFF),
                level: Level::Zero,
                writable: true,
            },
            segments: segments::initial(),
            halted: false,
            inside: false,
            latched: false,
            config: Config {
                settings: Settings {
                    edition,
                    ccr1: 0,
                    ccr3: 0,
                    high: 0,
                    middle: 0,
                    low: 0,
                    ccr6: 0,
                    smhr0: 0,
                    smhr1: 0,
                    smhr2: 0,
                    smhr3: 0,
                },
                index: 0,
                armed: false,
            },
        }
    }

    // The same machine, put together field by field: the gaps between the fields are then not copied from step to step.
    pub fn anew(self) -> Machine
        ensures { result ≡ self }
    {
        let r = self.registers;
        Machine {
            registers: Registers {
                eip: r.eip,
                eflags: r.eflags,
                cr0: r.cr0,
                dr7: r.dr7,
                cs: memory::fresh(r.cs),
                level: r.level,
                writable: r.writable,
            },
            segments: self.segments.anew(),
            halted: self.halted,
            inside: self.inside,
            latched: self.latched,
            config: self.config,
        }
    }

    fn answers(self, answer: Answer) -> Stepped
        ensures { result ≡ gives self answer }
    {
        Stepped {
            machine: self,
            answer,
        }
    }

    fn with_registers(self, registers: Registers) -> Machine
        ensures { result ≡ with_registers self registers }
    {
        Machine { registers, ..self }
    }

    fn with_halted(self, halted: bool) -> Machine
        ensures { result ≡ with_halted self halted }
    {
        Machine { halted, ..self }
    }

    // The machine with another EIP.
    fn advance(self, next: u32) -> Machine
        ensures { result ≡ advanced self next }
    {
        self.with_registers(Registers {
            eip: next,
            ..self.registers
        })
    }

    fn segment(self, name: SegmentName) -> Segment
        ensures { result ≡ segment_in self name }
    {
        self.segments.named(self.registers.cs, name)
    }

    fn with_segments(self, segments: Segments) -> Machine
        ensures { result ≡ with_segments self segments }
    {
        Machine { segments, ..self }
    }

    fn with_segment(self, name: SegmentName, value: Segment) -> Machine
        ensures { result ≡ with_segment self name value }
    {
        if name.is_cs() {
            self.with_registers(Registers {
                cs: value,
                ..self.registers
            })
        } else {
            self.with_segments(self.segments.with_named(name, value))
        }
    }

    fn settings(self) -> Settings
        ensures { result ≡ settings_of self }
    {
        self.config.settings
    }

    fn with_config(self, config: Config) -> Machine
        ensures { result ≡ with_config self config }
    {
        Machine { config, ..self }
    }

    fn with_settings(self, settings: Settings) -> Machine
        ensures { result ≡ with_settings self settings }
    {
        self.with_config(Config {
            settings,
            ..self.config
        })
    }

    // The machine after entry.
    #[tactic(auto, unfolding(crate::specs::Service::entered_machine))]
    fn entered(self, latched: bool) -> Machine
        ensures { result ≡ entered_machine self latched }
    {
        let settings = self.settings();
        Machine {
            registers: header::entry_registers(self.registers, settings.region().base),
            halted: false,
            inside: true,
            latched,
            ..self.with_settings(nesting::entered(settings))
        }
    }

    // Entry: the header is written to management memory, and the machine goes to the handler.
    #[tactic(auto, unfolding(crate::specs::Service::entry))]
    fn enter(self, management: &mut [u8], saved: Saved, latched: bool) -> Stepped
        ensures { (main : List ℕ) → ends result (memories main management.new)
            ≡ entry self (memories main management.old) saved latched }
    {
        header::write(management, self.settings().header_place(), saved);
        self.entered(latched).answers(Answer::Entered)
    }

    fn enter_at_boundary(
        self,
        management: &mut [u8],
        current: u32,
        interruption: Interruption,
    ) -> Stepped
        ensures { (main : List ℕ) → ends result (memories main management.new)
            ≡ entry_at_boundary self (memories main management.old) current interruption }
    {
        let saved = header::saved_at_boundary(
            self.registers,
            self.halted,
            self.inside,
            current,
            interruption,
        );
        self.enter(management, saved, false)
    }

    // Whether a boundary takes an SMI.
    #[tactic(auto, unfolding(crate::specs::Service::taken))]
    fn is_taken(self, asserted: bool) -> bool
        ensures { result ≡ taken self asserted }
    {
        nesting::takes_smi(self.settings(), self.inside) && (asserted || self.latched)
    }

    // A boundary that takes none.
    #[tactic(auto, unfolding(crate::specs::Service::passed))]
    fn pass(self, asserted: bool) -> Stepped
        ensures { result ≡ passed self asserted }
    {
        if !asserted {
            self.answers(Answer::Nothing)
        } else if self.inside {
            Machine {
                latched: true,
                ..self
            }
            .answers(Answer::Latched)
        } else {
            self.answers(Answer::Ignored)
        }
    }

    // SMINT, which keeps the latch.
    fn enter_by_smint(self, management: &mut [u8], next: u32) -> Stepped
        ensures { (main : List ℕ) → ends result (memories main management.new)
            ≡ entry_by_smint self (memories main management.old) next }
    {
        let saved = header::saved_by_smint(self.registers, self.halted, next);
        self.enter(management, saved, self.latched)
    }

    // RSM.
    #[tactic(auto, unfolding(crate::specs::Service::resume))]
    fn resume(self, management: &[u8]) -> Stepped
        ensures { result ≡ resume self management.now }
    {
        let settings = self.settings();
        let at = settings.header_place();
        let next = Machine {
            registers: header::read(management, at),
            halted: false,
            inside: nesting::stays_inside(settings, header::is_nested(management, at)),
            ..self.with_settings(nesting::resumed(settings))
        };
        next.answers(Answer::Resumed)
    }

    // Whether the opcodes are valid on this machine at all.
    #[tactic(auto, unfolding(crate::specs::Steps::permitted))]
    fn permits(self) -> bool
        ensures { result ≡ permitted self }
    {
        self.registers.level == Level::Zero && self.settings().allows_opcodes(self.inside)
    }

    // What an opcode asks for, undefined where that is not valid.
    #[tactic(auto, unfolding(crate::specs::Steps::operation_on, crate::specs::Steps::valid))]
    fn operation(self, opcode: u8, modrm: u8) -> Operation
        ensures { result ≡ operation_on self opcode modrm }
    {
        let settings = self.settings();
        let o = opcodes::decode(settings.edition, opcode, modrm);
        if self.permits() && o.is_allowed(settings, self.inside) {
            o
        } else {
            Operation::Undefined
        }
    }

    // The region whose bytes management memory answers.
    fn window(self) -> Region
        ensures { result ≡ window self }
    {
        self.settings().window(self.inside)
    }

    // SVDC, SVLDT and SVTS.
    #[tactic(auto, unfolding(crate::specs::Steps::saved))]
    fn save(
        self,
        main: &mut [u8],
        management: &mut [u8],
        name: SegmentName,
        address: u32,
        next: u32,
    ) -> Stepped
        ensures { ends result (memories main.new management.new)
            ≡ saved self (memories main.old management.old) name address next }
    {
        memory::store_segment(self.window(), main, management, address, self.segment(name));
        self.advance(next).answers(Answer::Done)
    }

    // RSDC, RSLDT and RSTS.
    #[tactic(auto, unfolding(crate::specs::Steps::restored))]
    fn restore(
        self,
        main: &[u8],
        management: &[u8],
        name: SegmentName,
        address: u32,
        next: u32,
    ) -> Stepped
        ensures { result ≡ restored self (memories main.now management.now) name address next }
    {
        let value = memory::load_segment(self.window(), main, management, address);
        self.with_segment(name, value)
            .advance(next)
            .answers(Answer::Done)
    }

    // RDSHR.
    #[tactic(auto, unfolding(crate::specs::Steps::smhr_stored))]
    fn store_smhr(self, main: &mut [u8], management: &mut [u8], address: u32, next: u32) -> Stepped
        ensures { ends result (memories main.new management.new)
            ≡ smhr_stored self (memories main.old management.old) address next }
    {
        let smhr = self.settings().smhr();
        memory::store_word(self.window(), main, management, address, smhr);
        self.advance(next).answers(Answer::Done)
    }

    // WRSHR.
    #[tactic(auto, unfolding(crate::specs::Steps::smhr_loaded))]
    fn load_smhr(self, main: &[u8], management: &[u8], address: u32, next: u32) -> Stepped
        ensures { result ≡ smhr_loaded self (memories main.now management.now) address next }
    {
        let smhr = memory::load_word(self.window(), main, management, address);
        self.with_settings(self.settings().with_smhr(smhr))
            .advance(next)
            .answers(Answer::Done)
    }

    // The machine after a port access, and the answer.
    fn ported(self, access: Accessed) -> Stepped
        ensures { result ≡ port_step self access }
    {
        self.with_config(access.config).answers(access.answer)
    }

    // ---- the steps

    fn reset(self) -> Stepped
        ensures { result ≡ reset_step self }
    {
        Machine::initial(self.settings().edition).answers(Answer::Done)
    }

    // The fields of a registers step one by one, as registers_step takes them.
    fn load_registers(
        self,
        eip: u32,
        eflags: u32,
        cr0: u32,
        dr7: u32,
        selector: u16,
        descriptor: u64,
        level: u8,
        writable: u8,
    ) -> Stepped
        ensures { result ≡ registers_step self eip eflags cr0 dr7 selector descriptor level writable }
    {
        let registers = Registers {
            eip,
            eflags,
            cr0,
            dr7,
            cs: memory::segment_of(selector, descriptor),
            level: Level::from(level),
            writable: writable == 1,
        };
        self.with_registers(registers).answers(Answer::Done)
    }

    #[tactic(auto, using(steps::proofs::Laws::width_small))]
    fn read(self, main: &[u8], management: &[u8], width: u8, address: u32) -> Stepped
        requires { is_width width ≡ true }
        ensures { result ≡ read_step self (memories main.now management.now) width address }
    {
        self.answers(memory::read(self.window(), main, management, address, width))
    }

    fn write(
        self,
        main: &mut [u8],
        management: &mut [u8],
        width: u8,
        address: u32,
        value: u32,
    ) -> Stepped
        ensures { ends result (memories main.new management.new)
            ≡ write_step self (memories main.old management.old) width address value }
    {
        self.answers(memory::write(self.window(), main, management, address, width, value))
    }

    fn read_port(self, port: u16) -> Stepped
        ensures { result ≡ port_read_step self port }
    {
        self.ported(self.config.read(port))
    }

    fn write_port(self, port: u16, value: u8) -> Stepped
        ensures { result ≡ port_write_step self port value }
    {
        self.ported(self.config.write(port, value, self.inside))
    }

    // An operation whose operand, if it has one, is all there. A match: closures in a table would not show that each case is met.
    #[tactic(auto, unfolding(crate::specs::Steps::operated))]
    fn operate(
        self,
        main: &mut [u8],
        management: &mut [u8],
        o: Operation,
        address: u32,
        next: u32,
    ) -> Stepped
        ensures { ends result (memories main.new management.new)
            ≡ operated self (memories main.old management.old) o address next }
    {
        match o {
            Operation::Save(name) => self.save(main, management, name, address, next),
            Operation::Restore(name) => self.restore(main, management, name, address, next),
            Operation::Rdshr => self.store_smhr(main, management, address, next),
            Operation::Wrshr => self.load_smhr(main, management, address, next),
            Operation::Smint => self.enter_by_smint(management, next),
            Operation::Rsm => self.resume(management),
            Operation::Undefined => self.answers(Answer::Invalid),
        }
    }

    #[tactic(auto, unfolding(crate::specs::Steps::opcode_step, crate::specs::Steps::with_operand))]
    fn opcode(
        self,
        main: &mut [u8],
        management: &mut [u8],
        opcode: u8,
        modrm: u8,
        address: u32,
        next: u32,
    ) -> Stepped
        ensures { ends result (memories main.new management.new)
            ≡ opcode_step self (memories main.old management.old) opcode modrm address next }
    {
        let o = self.operation(opcode, modrm);
        if memory::all_there(self.window(), main.len(), address, o.operand_size()) {
            self.operate(main, management, o, address, next)
        } else {
            self.answers(Answer::Absent)
        }
    }

    #[tactic(auto, unfolding(crate::specs::Service::boundary_step))]
    fn boundary(
        self,
        management: &mut [u8],
        smi: u8,
        current: u32,
        interruption: Interruption,
    ) -> Stepped
        ensures { (main : List ℕ) → ends result (memories main management.new)
            ≡ boundary_step self (memories main management.old) (eqb smi 1) current interruption }
    {
        let asserted = smi == 1;
        if self.is_taken(asserted) {
            self.enter_at_boundary(management, current, interruption)
        } else {
            self.pass(asserted)
        }
    }

    fn halt(self) -> Stepped
        ensures { result ≡ halt_step self }
    {
        self.with_halted(true).answers(Answer::Done)
    }

    fn wake(self) -> Stepped
        ensures { result ≡ wake_step self }
    {
        self.with_halted(false).answers(Answer::Done)
    }

    // A step that no refusal of 1 to 3 stops. The results of the two that can enter have a local of their own: the compiler then doesn't copy
    // the machine at a data access.
    #[tactic(auto, using(steps::proofs::Laws::read_formed), unfolding(crate::specs::Steps::performed))]
    fn perform(self, main: &mut [u8], management: &mut [u8], s: Step) -> Stepped
        requires { malformed s ≡ false }
        ensures { ends result (memories main.new management.new)
            ≡ performed self (memories main.old management.old) s }
    {
        match s {
            Step::Reset => self.reset(),
            Step::Registers {
                eip,
                eflags,
                cr0,
                dr7,
                selector,
                descriptor,
                level,
                writable,
            } => self.load_registers(eip, eflags, cr0, dr7, selector, descriptor, level, writable),
            Step::Read { width, address } => self.read(main, management, width, address),
            Step::Write {
                width,
                address,
                value,
            } => self.write(main, management, width, address, value),
            Step::PortRead { port } => self.read_port(port),
            Step::PortWrite { port, value } => self.write_port(port, value),
            Step::Opcode {
                opcode,
                modrm,
                address,
                next,
            } => {
                let r = self.opcode(main, management, opcode, modrm, address, next);
                r
            }
            Step::Boundary {
                smi,
                current,
                interruption,
            } => {
                let r = self.boundary(management, smi, current, interruption);
                r
            }
            Step::MalformedBoundary => self.answers(Answer::Malformed),
            Step::Halt => self.halt(),
            Step::Wake => self.wake(),
        }
    }

    // One step: it takes the whole machine and hands the next one back, as 01 describes it.
    #[tactic(auto, using(refusals::proofs::Laws::allowed_formed), unfolding(crate::specs::Steps::stepped))]
    pub fn step(self, main: &mut [u8], management: &mut [u8], s: Step) -> Stepped
        ensures { ends result (memories main.new management.new)
            ≡ stepped self (memories main.old management.old) s }
    {
        let m = self.anew();
        match refusals::first_refusal(m.halted, main, management, s) {
            Some(refusal) => m.answers(refusal),
            None => m.perform(main, management, s),
        }
    }
}
