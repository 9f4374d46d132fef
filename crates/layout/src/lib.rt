// The layouts of the bulk file's records, and the Set IDs that choose among them.
#![tactic(auto)]

ghost use Rattle.std.specs.Prelude.{◌≡◌, true};
ghost use Rattle.layout.specs.Layouts.{header_of, detail_of, entry_of, layout_of, width_of, fields_of, Fits, Adjoining};
ghost use Rattle.layout.specs.Companions.{companions_of, name_fields, in_order};

use crate::companion::Companion;
use crate::field::Field;
use crate::letter::Letter;
use crate::set_id::SetId;

pub mod companion;
pub mod field;
pub mod letter;
pub mod pair;
pub mod set_id;
mod tables;

// The layout of a record. 820 and 810 share theirs, and so do 812 and 829; all four have the same E record.
#[derive(Clone, Copy, PartialEq, Eq, Debug)]
pub enum Layout {
    PaymentHeader,
    PaymentDetail,
    AdjustmentHeader,
    AdjustmentDetail,
    SglEntry,
    ZeroDollarHeader,
    ZeroDollarDetail,
    PostSglHeader,
    PostSglDetail,
    PostSglEntry,
}

impl Layout {
    pub fn header(set: SetId) -> Layout
        ensures { result ≡ header_of set }
    {
        match set {
            SetId::Payment | SetId::Collection => Layout::PaymentHeader,
            SetId::ReceiverAdjustment | SetId::SenderAdjustment => Layout::AdjustmentHeader,
            SetId::ZeroDollar => Layout::ZeroDollarHeader,
            SetId::PostSgl => Layout::PostSglHeader,
        }
    }

    pub fn detail(set: SetId) -> Layout
        ensures { result ≡ detail_of set }
    {
        match set {
            SetId::Payment | SetId::Collection => Layout::PaymentDetail,
            SetId::ReceiverAdjustment | SetId::SenderAdjustment => Layout::AdjustmentDetail,
            SetId::ZeroDollar => Layout::ZeroDollarDetail,
            SetId::PostSgl => Layout::PostSglDetail,
        }
    }

    // 835 has no E record.
    pub fn entry(set: SetId) -> Option<Layout>
        ensures { result ≡ entry_of set }
    {
        match set {
            SetId::Payment | SetId::Collection => Some(Layout::SglEntry),
            SetId::ReceiverAdjustment | SetId::SenderAdjustment => Some(Layout::SglEntry),
            SetId::ZeroDollar => None,
            SetId::PostSgl => Some(Layout::PostSglEntry),
        }
    }

    // The layout of the records with this letter in a transaction of this Set ID.
    pub fn of(set: SetId, letter: Letter) -> Option<Layout>
        ensures { result ≡ layout_of set letter }
    {
        match letter {
            Letter::Header => Some(Layout::header(set)),
            Letter::Detail => Some(Layout::detail(set)),
            Letter::Entry => Layout::entry(set),
        }
    }

    // How many bytes a record has.
    pub fn width(self) -> usize
        ensures { result ≡ width_of self }
    {
        match self {
            Layout::PaymentHeader => 49,
            Layout::PaymentDetail => 1077,
            Layout::AdjustmentHeader => 64,
            Layout::AdjustmentDetail => 489,
            Layout::SglEntry => 23,
            Layout::ZeroDollarHeader => 39,
            Layout::ZeroDollarDetail => 1056,
            Layout::PostSglHeader => 39,
            Layout::PostSglDetail => 262,
            Layout::PostSglEntry => 23,
        }
    }

    // Apart from `fields`, so that what is proved of every table is proved of one call and not of each arm.
    fn table(self) -> &'static [Field]
        ensures { result.now ≡ fields_of self }
    {
        match self {
            Layout::PaymentHeader => &tables::PAYMENT_HEADER,
            Layout::PaymentDetail => &tables::PAYMENT_DETAIL,
            Layout::AdjustmentHeader => &tables::ADJUSTMENT_HEADER,
            Layout::AdjustmentDetail => &tables::ADJUSTMENT_DETAIL,
            Layout::SglEntry => &tables::SGL_ENTRY,
            Layout::ZeroDollarHeader => &tables::ZERO_DOLLAR_HEADER,
            Layout::ZeroDollarDetail => &tables::ZERO_DOLLAR_DETAIL,
            Layout::PostSglHeader => &tables::POST_SGL_HEADER,
            Layout::PostSglDetail => &tables::POST_SGL_DETAIL,
            Layout::PostSglEntry => &tables::POST_SGL_ENTRY,
        }
    }

    // The fields of a record, in the order of their columns. Each starts right after the one before it, and the last ends at the record's last byte.
    pub fn fields(self) -> &'static [Field]
        ensures value { result.now ≡ fields_of self }
        ensures adjoining { Adjoining (width_of self) result.now }
        ensures fits { Fits (width_of self) result.now }
    {
        self.table()
    }

    // Apart from `companions`, as `table` is from `fields`.
    fn rules(self) -> &'static [Companion]
        ensures { result.now ≡ companions_of self }
    {
        match self {
            Layout::PaymentDetail => &tables::PAYMENT_COMPANIONS,
            Layout::AdjustmentDetail => &tables::ADJUSTMENT_COMPANIONS,
            Layout::ZeroDollarDetail => &tables::ZERO_DOLLAR_COMPANIONS,
            _ => &[],
        }
    }

    // The companion rules of a record, in the order of the columns that they refuse. Each names two fields of the record.
    pub fn companions(self) -> &'static [Companion]
        ensures value { result.now ≡ companions_of self }
        ensures named { name_fields (fields_of self) result.now ≡ true }
        ensures ordered { in_order 1 result.now ≡ true }
    {
        self.rules()
    }
}
