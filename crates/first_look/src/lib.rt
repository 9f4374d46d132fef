// First look: a file posted to a new small book. Crate first_look_c makes it a symbol for programs in C.
#![tactic(auto)]

ghost use Rattle.std.specs.Prelude.{◌≡◌, length};
ghost use Rattle.filing.specs.Admitting.{with_code};
ghost use Rattle.filing.specs.Filed.{length_of, packet_in};
ghost use Rattle.promises.specs.Replaced.{handed};
ghost use Rattle.first_look.specs.Looks.{Told, texts, look_answer, number_of};

use calls::fault::FileFault;
use filing::files::post;
use register::bit_map::BitMap;
use register::five::Five;
use register::key_list::KeyList;
use small_book::SmallBook;

// The texts of the five registers: four of keys, and a bit map. One that its check refuses is an empty register.
#[derive(Clone, Copy, PartialEq, Eq, Debug)]
pub struct RegisterTexts<'a> {
    pub agencies: &'a [u8],
    pub offices: &'a [u8],
    pub symbols: &'a [u8],
    pub units: &'a [u8],
    pub accounts: &'a [u8],
}

// Posts a file to a new small book. It answers the length of the packet, or why the file is refused; a refused file leaves the
// packet's buffer as it is.
pub fn look(
    file: &[u8],
    registers: &RegisterTexts<'_>,
    day: u32,
    packet: &mut [u8],
) -> Result<usize, FileFault>
    ensures answer { let r = registers.now in with_code result ≡ length_of (look_answer (texts r.agencies.now r.offices.now r.symbols.now r.units.now r.accounts.now) (handed file.now day (length packet.old))) }
    ensures packet { let r = registers.now in packet.new ≡ packet_in packet.old (look_answer (texts r.agencies.now r.offices.now r.symbols.now r.units.now r.accounts.now) (handed file.now day (length packet.old))) }
{
    let five = Five {
        agencies: KeyList::of(registers.agencies, 8),
        offices: KeyList::of(registers.offices, 5),
        symbols: KeyList::of(registers.symbols, 27),
        units: KeyList::of(registers.units, 2),
        accounts: BitMap::of(registers.accounts),
    };
    let mut book = SmallBook::new();
    post(&five, &mut book, file, day, packet)
}

// First look as programs in C call it, bytes and numbers in, one number out: the length of the packet, 36 or more, or a file code,
// which is below 20.
// Each text stands by itself and the answer is a number: so the C interface asks.
pub fn first_look(
    file: &[u8],
    alc: &[u8],
    office: &[u8],
    symbol: &[u8],
    unit: &[u8],
    map: &[u8],
    day: u32,
    packet: &mut [u8],
) -> u64
    ensures answer { result ≡ number_of (look_answer (texts alc.now office.now symbol.now unit.now map.now) (handed file.now day (length packet.old))) }
    ensures told { Told (look_answer (texts alc.now office.now symbol.now unit.now map.now) (handed file.now day (length packet.old))) }
    ensures packet { packet.new ≡ packet_in packet.old (look_answer (texts alc.now office.now symbol.now unit.now map.now) (handed file.now day (length packet.old))) }
{
    let registers = RegisterTexts {
        agencies: alc,
        offices: office,
        symbols: symbol,
        units: unit,
        accounts: map,
    };
    match look(file, &registers, day, packet) {
        Ok(length) => length as u64,
        Err(fault) => u64::from(fault.code()),
    }
}
