// What every packet of a record is recorded with.
ghost use Rattle.std.specs.Prelude.{◌≡◌, ◌≤◌, ◌++◌, IfOk, IsErr};
ghost use Rattle.aftr_base.specs.Appended.{Extends};
ghost use Rattle.capture_io.specs.Packets.{packet_head, packet_tail};

use aftr_base::OutOfMemory;
use capture_io::Written;

// The form of the capture that is written, and the time of the record that the packets come of.
#[derive(Clone, Copy, Debug)]
pub(crate) struct Stamp {
    pub form: Written,
    pub seconds: u32,
    pub fraction: u32,
}

impl Stamp {
    // Appends what stands before a packet of this length.
    #[inline(always)]
    pub(crate) fn push_head(self, out: &mut Vec<u8>, len: usize) -> Result<(), OutOfMemory>
        requires { len ≤ 65575 }
        ensures bytes { IfOk result (λ _. out.new.items ≡ out.old.items ++ packet_head self.form self.seconds self.fraction len) }
        ensures kept { IsErr result → Extends out.old.items out.new.items }
    {
        self.form
            .push_head(out, self.seconds, self.fraction, len as u32)?;
        Ok(())
    }

    // Appends what stands behind such a packet.
    #[inline(always)]
    pub(crate) fn push_tail(self, out: &mut Vec<u8>, len: usize) -> Result<(), OutOfMemory>
        requires { len ≤ 65575 }
        ensures bytes { IfOk result (λ _. out.new.items ≡ out.old.items ++ packet_tail self.form len) }
        ensures kept { IsErr result → Extends out.old.items out.new.items }
    {
        self.form.push_tail(out, len as u32)?;
        Ok(())
    }
}
