ghost use Rattle.std.specs.Prelude.{◌≡◌, ◌-◌, ◌^◌, ◌<◌};
ghost use Rattle.engine.specs.Meaning.{answered};

use crate::EngineFault;

// The operations that an engine may still be asked for.
#[derive(Drop)]
pub struct Allowance {
    left: u32,
    ghost fits: { left < 2 ^ 32 },
}

impl Allowance {
    pub fn new(left: u32) -> Self
        ensures { result.left ≡ left }
    {
        Allowance { left }
    }

    pub fn left(&self) -> u32
        ensures { result ≡ self.now.left }
    {
        self.left
    }

    // Takes one operation off, or refuses where none is left.
    pub fn spend(&mut self) -> Result<(), EngineFault>
        ensures answer { result ≡ answered self.old.left tt }
        ensures after { self.new.left ≡ self.old.left - 1 }
        ensures unaltered { self.old.left ≡ 0 → self.new ≡ self.old }
    {
        if self.left == 0 {
            return Err(EngineFault::Spent { due: 1, left: 0 });
        }
        self.left -= 1;
        Ok(())
    }
}
