// Why no tag was worked out.
use engine::EngineFault;

#[derive(Clone, Copy, PartialEq, Eq, Debug)]
pub enum TagFault {
    // The memory is over 65,536 bytes, or under the bits asked for.
    Memory,
    Engine(EngineFault),
}
