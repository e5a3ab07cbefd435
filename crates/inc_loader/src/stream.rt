// A loader on the other side of two streams: pieces come in, requests go out.
ghost use Rattle.std.specs.Prelude.{◌≡◌, ◌≤◌, [], true, false, None, IfOk};

mod loading;
mod outlet;
mod piece_reader;
mod stop;
#[cfg(test)]
mod tests;

use crate::OutOfMemory;
use crate::held::Held;
use inc_io::{Sink, Source};
use outlet::Outlet;
pub use piece_reader::PieceReader;
use std::alloc::Global;
pub use stop::ReadStop;

/// A loader that reads frames from a source and writes requests to a sink.
#[derive(Drop)]
pub struct StreamLoader<I: Source + Drop, O: Sink + Drop> {
    held: Held,
    input: I,
    inlet: PieceReader,
    outlet: Outlet<O>,
}

impl<I: Source + Drop, O: Sink + Drop> StreamLoader<I, O> {
    ghost use Rattle.std.specs.Prelude.{take};
    ghost use Rattle.inc_frame.specs.Fronts.{Greeting};
    ghost use Rattle.inc_loader.specs.Reading.{IsReadStream, before_rest, has_given_all};
    ghost use Rattle.inc_loader.specs.Turns.{IsFreshLoader};
    ghost use Rattle.inc_loader.specs.Sent.{HasRequests};

    /// A loader that writes requests of version 1, without the users.
    pub fn new(alloc: Global, input: I, out: O) -> Result<StreamLoader<I, O>, OutOfMemory>
        ensures fresh { IfOk result (λ loader. IsFreshLoader loader.held.files loader.held.told.items loader.held.given.items
            loader.inlet.refused (has_given_all loader.inlet.whole.items loader.inlet.reader.state) loader.held.stopped) }
        ensures unread { IfOk result (λ loader. (loader.input ≡ input) × (loader.inlet.reader.state ≡ Greeting [])
            × (loader.inlet.whole.items ≡ []) × (loader.inlet.refused ≡ None)) }
        ensures unsent { IfOk result (λ loader. (loader.outlet.out ≡ out)
            × (loader.outlet.second ≡ false) × (loader.outlet.greeted ≡ false)) }
        ensures reads { IfOk result (λ loader. IsReadStream (I.left input) [] [] loader.inlet.whole.items loader.inlet.reader.state
            loader.inlet.refused (I.ended loader.input)
            (before_rest (take loader.inlet.filled loader.inlet.room.items) (I.left loader.input))) }
        ensures sends { IfOk result (λ loader. HasRequests (O.written out) (O.written loader.outlet.out) loader.outlet.second
            loader.outlet.greeted loader.held.told.items) }
    {
        StreamLoader::of_version(alloc, input, out, false)
    }

    /// A loader that writes requests of version 2, with the users.
    pub fn new2(alloc: Global, input: I, out: O) -> Result<StreamLoader<I, O>, OutOfMemory>
        ensures fresh { IfOk result (λ loader. IsFreshLoader loader.held.files loader.held.told.items loader.held.given.items
            loader.inlet.refused (has_given_all loader.inlet.whole.items loader.inlet.reader.state) loader.held.stopped) }
        ensures unread { IfOk result (λ loader. (loader.input ≡ input) × (loader.inlet.reader.state ≡ Greeting [])
            × (loader.inlet.whole.items ≡ []) × (loader.inlet.refused ≡ None)) }
        ensures unsent { IfOk result (λ loader. (loader.outlet.out ≡ out)
            × (loader.outlet.second ≡ true) × (loader.outlet.greeted ≡ false)) }
        ensures reads { IfOk result (λ loader. IsReadStream (I.left input) [] [] loader.inlet.whole.items loader.inlet.reader.state
            loader.inlet.refused (I.ended loader.input)
            (before_rest (take loader.inlet.filled loader.inlet.room.items) (I.left loader.input))) }
        ensures sends { IfOk result (λ loader. HasRequests (O.written out) (O.written loader.outlet.out) loader.outlet.second
            loader.outlet.greeted loader.held.told.items) }
    {
        StreamLoader::of_version(alloc, input, out, true)
    }

    #[tactic(auto, using(crate::proofs::SentLemmas::none_sent))]
    fn of_version(
        alloc: Global,
        input: I,
        out: O,
        second: bool,
    ) -> Result<StreamLoader<I, O>, OutOfMemory>
        ensures fresh { IfOk result (λ loader. IsFreshLoader loader.held.files loader.held.told.items loader.held.given.items
            loader.inlet.refused (has_given_all loader.inlet.whole.items loader.inlet.reader.state) loader.held.stopped) }
        ensures unread { IfOk result (λ loader. (loader.input ≡ input) × (loader.inlet.reader.state ≡ Greeting [])
            × (loader.inlet.whole.items ≡ []) × (loader.inlet.refused ≡ None)) }
        ensures unsent { IfOk result (λ loader. (loader.outlet.out ≡ out)
            × (loader.outlet.second ≡ second) × (loader.outlet.greeted ≡ false)) }
        ensures reads { IfOk result (λ loader. IsReadStream (I.left input) [] [] loader.inlet.whole.items loader.inlet.reader.state
            loader.inlet.refused (I.ended loader.input)
            (before_rest (take loader.inlet.filled loader.inlet.room.items) (I.left loader.input))) }
        ensures sends { IfOk result (λ loader. HasRequests (O.written out) (O.written loader.outlet.out) loader.outlet.second
            loader.outlet.greeted loader.held.told.items) }
    {
        Ok(StreamLoader {
            held: Held::new(alloc),
            input,
            inlet: PieceReader::new(alloc)?,
            outlet: Outlet {
                out,
                second,
                greeted: false,
            },
        })
    }
}
