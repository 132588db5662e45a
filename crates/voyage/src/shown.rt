// What is shown of a command.
use engine::{EngineFault, Numbered};
use overlay::{BookingFault, OverlayFault};
use std::fmt;

#[derive(Drop)]
pub(crate) enum Shown {
    Call(Call),
    Booking(Result<(), BookingFault>),
}

// A call of the overlay: what it came to, the bits that then stand, the operations on its slip and the slip's number.
#[derive(Drop)]
pub(crate) struct Call {
    pub(crate) name: &'static str,
    pub(crate) outcome: Result<(), OverlayFault>,
    pub(crate) bits: u32,
    pub(crate) operations: u32,
    pub(crate) slip: usize,
    // A tag in hex, where one was written.
    pub(crate) tag: Option<String>,
}

// A refusal: its number, and what it tells.
#[derive(Clone, Copy)]
pub(crate) struct Refusal(pub(crate) OverlayFault);

impl fmt::Display for Refusal {
    fn fmt<W: fmt::Write>(&self, f: &mut fmt::Formatter<W>) -> fmt::Result {
        let number = self.0.number();
        match self.0 {
            OverlayFault::Engine(EngineFault::Spent { due, left }) => write!(
                f,
                "{number} (due {due}, left {left})"
            ),
            _ => write!(f, "{number}"),
        }
    }
}

impl fmt::Display for Call {
    fn fmt<W: fmt::Write>(&self, f: &mut fmt::Formatter<W>) -> fmt::Result {
        let Call {
            name,
            outcome,
            bits,
            operations,
            slip,
            tag,
        } = self;
        match outcome {
            Ok(()) => write!(f, "{name} 0")?,
            Err(fault) => {
                let refusal = Refusal(*fault);
                write!(f, "{name} {refusal}")?;
            }
        }
        write!(f, " {bits} {operations} {slip}")?;
        match tag {
            Some(tag) => write!(f, " {tag}"),
            None => Ok(()),
        }
    }
}

impl fmt::Display for Shown {
    fn fmt<W: fmt::Write>(&self, f: &mut fmt::Formatter<W>) -> fmt::Result {
        match self {
            Shown::Call(call) => write!(f, "{call}"),
            Shown::Booking(Ok(())) => write!(f, "book 0"),
            Shown::Booking(Err(fault)) => {
                let number = fault.number();
                write!(f, "book {number}")
            }
        }
    }
}
