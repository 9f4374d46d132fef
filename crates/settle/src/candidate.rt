// A transaction that is sound on its own, as it is judged against a book and entered in it.
ghost use Rattle.std.specs.Prelude.{◌≡◌, IfOk};
ghost use Rattle.file.specs.Records.{records};
ghost use Rattle.transaction.specs.Checks.{own_verdict};
ghost use Rattle.transaction.specs.Headers.{set_id_of};
ghost use Rattle.transaction.specs.Layers.{outcome};
ghost use Rattle.transaction.specs.Sounds.{SoundOf};
ghost use Rattle.settle.specs.Relied.{Relied};

use layout::set_id::SetId;
use register::five::Registers;
use transaction::fault::TransactionFault;
use transaction::sound::{Sound, read};

// Its details are counted, few enough to be numbered as lines, and as long as their layout.
#[derive(Clone, Copy)]
pub(crate) struct Candidate<'a> {
    pub(crate) sound: Sound<'a>,
    ghost relied: { Relied sound.transaction sound.details sound.body.now },
}

impl<'a> Candidate<'a> {
    // A transaction, from its header on, judged on its own.
    pub(crate) fn of<R: Registers>(
        text: &'a [u8],
        registers: &R,
    ) -> Result<Candidate<'a>, TransactionFault>
        ensures verdict { outcome result ≡ own_verdict (R.Registers.holds registers.now) (records text.now) }
        ensures reading { IfOk result (λ c. SoundOf (records text.now) c.sound.transaction c.sound.details c.sound.body.now) }
    {
        let sound = read(text, registers)?;
        Ok(Candidate { sound })
    }

    pub(crate) fn set(&self) -> SetId
        ensures { result ≡ set_id_of self.now.sound.transaction }
    {
        self.sound.transaction.set_id()
    }
}
