// The side of a stream loader that writes.
ghost use Rattle.std.specs.Prelude.{◌≡◌, ◌++◌, true, OnOk};
ghost use Rattle.inc_frame.specs.Frames.{end_bytes};
ghost use Rattle.inc_io.specs.Causes.{HasCause};
ghost use Rattle.inc_loader.specs.Sent.{greeting_of, request_of, sent_after};

use inc_frame::{request_hello, request_hello2, write_request, write_request2, write_stop};
use inc_io::{Failed, Sink, write_all};
use inc_pending::PendingRecord;

#[derive(Drop)]
pub struct Outlet<O: Sink + Drop> {
    pub out: O,
    /// Whether requests are those of version 2, which have the user.
    pub second: bool,
    /// Whether the hello was sent.
    pub greeted: bool,
}

impl<O: Sink + Drop> Outlet<O> {
    // The hello goes before all else.
    fn greet(&mut self) -> Result<(), Failed>
        ensures sent { OnOk result (O.written self.new.out ≡ sent_after (O.written self.old.out) (greeting_of self.old.second self.old.greeted)) }
        ensures greeted { OnOk result (self.new.greeted ≡ true) }
        ensures second { self.new.second ≡ self.old.second }
        ensures cause { HasCause (O.faults self.old.out) (O.faults self.new.out) result }
    {
        if self.greeted {
            return Ok(());
        }
        let hello = if self.second {
            request_hello2()
        } else {
            request_hello()
        };
        write_all(&mut self.out, &hello)?;
        self.greeted = true;
        Ok(())
    }

    pub(crate) fn request(&mut self, read: &PendingRecord) -> Result<(), Failed>
        ensures sent { OnOk result (O.written self.new.out
            ≡ sent_after (O.written self.old.out) (greeting_of self.old.second self.old.greeted ++ request_of self.old.second read.now)) }
        ensures greeted { OnOk result (self.new.greeted ≡ true) }
        ensures second { self.new.second ≡ self.old.second }
        ensures cause { HasCause (O.faults self.old.out) (O.faults self.new.out) result }
    {
        self.greet()?;
        if self.second {
            write_all(&mut self.out, &write_request2(read))
        } else {
            write_all(&mut self.out, &write_request(read))
        }
    }

    pub(crate) fn stop(&mut self) -> Result<(), Failed>
        ensures sent { OnOk result (O.written self.new.out
            ≡ sent_after (O.written self.old.out) (greeting_of self.old.second self.old.greeted ++ end_bytes)) }
        ensures greeted { OnOk result (self.new.greeted ≡ true) }
        ensures second { self.new.second ≡ self.old.second }
        ensures cause { HasCause (O.faults self.old.out) (O.faults self.new.out) result }
    {
        self.greet()?;
        write_all(&mut self.out, &write_stop())
    }
}
