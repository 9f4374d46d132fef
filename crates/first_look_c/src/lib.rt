// First look as a symbol for programs in C: include/first_look.h declares it.
#![tactic(auto)]

ghost use Rattle.std.specs.Prelude.{◌≡◌, length};
ghost use Rattle.filing.specs.Filed.{packet_in};
ghost use Rattle.promises.specs.Replaced.{handed};
ghost use Rattle.first_look.specs.Looks.{Told, texts, look_answer, number_of};

// Each input is a pointer and its length, and so is the packet's buffer.
#[unsafe(no_mangle)]
pub extern "C" fn first_look(
    file: &[u8],
    alc: &[u8],
    office: &[u8],
    symbol: &[u8],
    unit: &[u8],
    map: &[u8],
    day: u32,
    packet: &mut [u8],
) -> u64
    ensures answer { result ≡ number_of (look_answer (texts alc.now office.now symbol.now unit.now map.now) (handed file.now day (length packet.old))) }
    ensures told { Told (look_answer (texts alc.now office.now symbol.now unit.now map.now) (handed file.now day (length packet.old))) }
    ensures packet { packet.new ≡ packet_in packet.old (look_answer (texts alc.now office.now symbol.now unit.now map.now) (handed file.now day (length packet.old))) }
{
    first_look::first_look(file, alc, office, symbol, unit, map, day, packet)
}
