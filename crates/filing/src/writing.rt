// The verdicts of a file written into its packet, one after the other.
ghost use Rattle.std.specs.Prelude.{◌≡◌, suc, ◌+◌, ◌*◌, ◌≤◌, List, length, if◌then◌else◌};
ghost use Rattle.packet.specs.Written.{written};
ghost use Rattle.promises.specs.Packets.{verdict_item, file_item, is_accepted};

use packet::{put, verdict_item};
use transaction::verdict::Verdict;

// How many verdicts are written, and how many of them are of accepted transactions.
#[derive(Clone, Copy)]
pub(crate) struct Progress {
    pub(crate) verdicts: usize,
    pub(crate) accepted: usize,
}

impl Progress {
    // The next verdict, written behind those before it; the item of the file has the first 20 bytes.
    pub(crate) fn add(&mut self, packet: &mut [u8], verdict: Verdict)
        requires few { self.old.accepted ≤ self.old.verdicts }
        requires room { 20 + 16 * self.old.verdicts + 16 ≤ length packet.old }
        ensures verdicts { self.new.verdicts ≡ suc self.old.verdicts }
        ensures accepted { self.new.accepted ≡ self.old.accepted + (if is_accepted verdict then 1 else 0) }
        ensures packet { packet.new ≡ written packet.old (20 + 16 * self.old.verdicts) (verdict_item (suc self.old.verdicts) verdict) }
    {
        let at = 20 + 16 * self.verdicts;
        self.verdicts += 1;
        self.accepted += usize::from(verdict == Verdict::Accepted);
        let _ = put(packet, at, &verdict_item(self.verdicts, verdict));
    }
}
