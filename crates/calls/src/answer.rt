// The answers to the calls.
use crate::fault::FileFault;
use book::entry::Entry;
use book::mark::Counts;
use book::sought::Sought;

#[derive(PartialEq, Eq, Debug, Drop)]
pub enum Answer {
    // To check and post: the packet, or why the file is refused. Two variants, and no Result in one: an answer is told apart once.
    Packet(Vec<u8>),
    Refused(FileFault),
    Shown(Option<Entry>),
    Sought(Option<Sought>),
    Counted(Counts),
}
