// An axis over its drive.
use moves::Control;

#[derive(Drop)]
pub struct Axis<D> {
    pub(crate) control: Control,
    pub(crate) drive: D,
}
