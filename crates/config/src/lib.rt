#![tactic(auto)]

ghost use Rattle.std.specs.Prelude.{◌≡◌, false};
ghost use Rattle.config.specs.Ports.{always_internal, internal, indexed, answering, port_read, port_write};
ghost use Rattle.config.specs.Numbers.{OtherPorts, PortOfIndex, PortOfData, InternalByNumber};

use settings::Settings;
use steps::Answer;

// The settings, and the index that port 23h reaches while it is armed.
#[derive(Clone, Copy)]
pub struct Config {
    pub settings: Settings,
    pub index: u8,
    pub armed: bool,
}

// The configuration after a port access, and the answer. The rules name both fields, as they name those of a machine's step.
#[derive(Clone, Copy)]
pub struct Accessed {
    pub config: Config,
    pub answer: Answer,
}

// Whether port 23h always reaches a configuration register at this index.
#[tactic(auto, unfolding(crate::specs::Ports::always_internal))]
fn is_always_internal(index: u8) -> bool
    ensures { result ≡ always_internal index }
{
    matches!(index, 0xC0..=0xCF | 0xFE | 0xFF)
}

// Whether port 23h reaches a configuration register at this index.
#[tactic(auto, unfolding(crate::specs::Ports::internal))]
fn is_internal(s: Settings, index: u8) -> bool
    ensures { result ≡ internal s index }
{
    is_always_internal(index) || (s.edition.is_mii() && s.mapen())
}

impl Config {
    fn disarmed(self) -> Config
        ensures { result ≡ indexed self.settings self.index false }
    {
        Config {
            armed: false,
            ..self
        }
    }

    fn answering(self, answer: Answer) -> Accessed
        ensures { result ≡ answering self answer }
    {
        Accessed {
            config: self,
            answer,
        }
    }

    // A read of a port: port 23h, when armed, reaches the index.
    #[tactic(auto, unfolding(crate::specs::Ports::port_read))]
    pub fn read(self, port: u16) -> Accessed
        ensures { result ≡ port_read self port }
    {
        if port != 0x23 || !self.armed {
            return self.answering(Answer::External);
        }
        let after = self.disarmed();
        if is_internal(self.settings, self.index) {
            after.answering(Answer::Value(u32::from(self.settings.byte(self.index))))
        } else {
            after.answering(Answer::External)
        }
    }

    // A write to a port.
    #[tactic(auto, unfolding(crate::specs::Ports::port_write))]
    pub fn write(self, port: u16, value: u8, inside: bool) -> Accessed
        ensures { result ≡ port_write self port value inside }
    {
        match port {
            0x22 => Config {
                index: value,
                armed: true,
                ..self
            }
            .answering(Answer::Done),
            0x23 if self.armed => {
                let after = self.disarmed();
                if is_internal(self.settings, self.index) {
                    let settings = self.settings.write(self.index, value, inside);
                    Config { settings, ..after }.answering(Answer::Done)
                } else {
                    after.answering(Answer::External)
                }
            }
            _ => self.answering(Answer::External),
        }
    }
}

// No code of the model: it holds the gate to the rules as raw numbers.
fn raw_numbers()
    ensures others { OtherPorts }
    ensures index { PortOfIndex }
    ensures data { PortOfData }
    ensures internal { InternalByNumber }
{}
