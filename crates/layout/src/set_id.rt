// The Set ID of a transaction: what kind of bill it is. Header columns 37 to 39 write it.
ghost use Rattle.std.specs.Prelude.{◌≡◌};
ghost use Rattle.layout.specs.SetIds.{number_of, set_id_of, set_id_in};

use octets::part::columns_of;

#[derive(Clone, Copy, PartialEq, Eq, Debug)]
pub enum SetId {
    Payment = 820,
    Collection = 810,
    ReceiverAdjustment = 812,
    SenderAdjustment = 829,
    ZeroDollar = 835,
    PostSgl = 840,
}

impl SetId {
    // The Set ID that three digits write, if they are one of the six.
    pub fn of(digits: &[u8]) -> Option<SetId>
        ensures { result ≡ set_id_of digits.now }
    {
        match digits {
            b"820" => Some(SetId::Payment),
            b"810" => Some(SetId::Collection),
            b"812" => Some(SetId::ReceiverAdjustment),
            b"829" => Some(SetId::SenderAdjustment),
            b"835" => Some(SetId::ZeroDollar),
            b"840" => Some(SetId::PostSgl),
            _ => None,
        }
    }

    // The Set ID of a transaction, by its header. A header below 39 bytes has none.
    pub fn in_header(header: &[u8]) -> Option<SetId>
        ensures { result ≡ set_id_in header.now }
    {
        SetId::of(columns_of(header, 37, 3))
    }

    pub fn number(self) -> u16
        ensures { result ≡ number_of self }
    {
        self as u16
    }
}
