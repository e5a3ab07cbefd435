/// Where a test holds a worker before or after a call, so that calls of several threads come in the order that it wants. It is passed outside
/// every lock, and no clause says anything of it.
pub trait Gate {
    /// `who` is the worker's seat. The calls of one worker count from 1.
    fn before(&self, who: u32, call: u32);

    fn after(&self, who: u32, call: u32);
}
