// The constant tables of the layouts, a row for each field in the layout's order: first column, length, whether required, kind, register.
use crate::companion::{Companion, Rule};
use crate::field::{Field, Kind, Lookup};
use crate::set_id::SetId;

const REQUIRED: bool = true;

const OPTIONAL: bool = false;

const PAYMENT_OR_COLLECTION: Kind = Kind::OneSet(SetId::Payment, SetId::Collection);

const ADJUSTMENT: Kind = Kind::OneSet(SetId::ReceiverAdjustment, SetId::SenderAdjustment);

const ZERO_DOLLAR: Kind = Kind::OneSet(SetId::ZeroDollar, SetId::ZeroDollar);

const POST_SGL: Kind = Kind::OneSet(SetId::PostSgl, SetId::PostSgl);

// 820 and 810: header of 49 bytes.
pub const PAYMENT_HEADER: [Field; 8] = [
    Field(1, 1, REQUIRED, Kind::OneOf([b'H', b'H']), Lookup::Free), // Record Type
    Field(2, 8, REQUIRED, Kind::Number, Lookup::Agencies), // ALC
    Field(10, 14, REQUIRED, Kind::Number, Lookup::Free), // Transaction Total Amount
    Field(24, 8, REQUIRED, Kind::Number, Lookup::Agencies), // Customer ALC
    Field(32, 5, REQUIRED, Kind::Text, Lookup::Offices), // Sender DO Symbol
    Field(37, 3, REQUIRED, PAYMENT_OR_COLLECTION, Lookup::Free), // Transaction Set ID
    Field(40, 8, OPTIONAL, Kind::Text, Lookup::Free), // Document Reference Number
    Field(48, 2, OPTIONAL, Kind::Filler, Lookup::Free), // Filler
];

// 820 and 810: detail of 1,077 bytes.
pub const PAYMENT_DETAIL: [Field; 33] = [
    Field(1, 1, REQUIRED, Kind::OneOf([b'D', b'D']), Lookup::Free), // Record Type
    Field(2, 16, OPTIONAL, Kind::Text, Lookup::Free), // Accounting Classification Code
    Field(18, 12, OPTIONAL, Kind::Text, Lookup::Free), // Account Classification Reference Number
    Field(30, 14, REQUIRED, Kind::Positive, Lookup::Free), // Detail Amount
    Field(44, 60, OPTIONAL, Kind::Text, Lookup::Free), // Contact Name
    Field(104, 17, OPTIONAL, Kind::Text, Lookup::Free), // Contact Phone Number
    Field(121, 6, OPTIONAL, Kind::Text, Lookup::Free), // Contract Line Item Number
    Field(127, 17, OPTIONAL, Kind::Text, Lookup::Free), // Contract Number
    Field(144, 2, OPTIONAL, Kind::Filler, Lookup::Free), // Filler
    Field(146, 320, OPTIONAL, Kind::Text, Lookup::Free), // Description
    Field(466, 8, OPTIONAL, Kind::Number, Lookup::Free), // Fiscal Station Number
    Field(474, 22, REQUIRED, Kind::Text, Lookup::Free), // Invoice Number
    Field(496, 30, OPTIONAL, Kind::Text, Lookup::Free), // JAS Number
    Field(526, 20, OPTIONAL, Kind::Text, Lookup::Free), // Job Number
    Field(546, 320, OPTIONAL, Kind::Text, Lookup::Free), // Miscellaneous Transaction Information
    Field(866, 17, REQUIRED, Kind::Text, Lookup::Free), // Obligating Document Number
    Field(883, 1, REQUIRED, Kind::OneOf([b'F', b'P']), Lookup::Free), // Pay Flag
    Field(884, 22, REQUIRED, Kind::Text, Lookup::Free), // Purchase Order Number
    Field(906, 14, REQUIRED, Kind::Positive, Lookup::Free), // Quantity
    Field(920, 1, OPTIONAL, Kind::OneOf([b'C', b'P']), Lookup::Free), // FY Obligation ID
    Field(921, 27, OPTIONAL, Kind::Symbol, Lookup::Symbols), // Receiver Treasury Account Symbol
    Field(948, 8, OPTIONAL, Kind::Text, Lookup::Free), // Receiver Business Event Type Code
    Field(956, 9, OPTIONAL, Kind::Text, Lookup::Free), // Receiver DUNS Number
    Field(965, 4, OPTIONAL, Kind::Text, Lookup::Free), // Receiver DUNS+4 Number
    Field(969, 15, OPTIONAL, Kind::Text, Lookup::Free), // Requisition Number
    Field(984, 27, REQUIRED, Kind::Symbol, Lookup::Symbols), // Sender Treasury Account Symbol
    Field(1011, 8, OPTIONAL, Kind::Text, Lookup::Free), // Sender Business Event Type Code
    Field(1019, 9, OPTIONAL, Kind::Text, Lookup::Free), // Sender DUNS Number
    Field(1028, 4, OPTIONAL, Kind::Text, Lookup::Free), // Sender DUNS+4 Number
    Field(1032, 15, OPTIONAL, Kind::Text, Lookup::Free), // (ACT) Trace Number
    Field(1047, 2, REQUIRED, Kind::Text, Lookup::Units), // Unit of Issue
    Field(1049, 14, REQUIRED, Kind::Positive, Lookup::Free), // Unit Price
    Field(1063, 15, OPTIONAL, Kind::Text, Lookup::Free), // DOD Activity Address Code
];

// 812 and 829: header of 64 bytes.
pub const ADJUSTMENT_HEADER: [Field; 11] = [
    Field(1, 1, REQUIRED, Kind::OneOf([b'H', b'H']), Lookup::Free), // Record Type
    Field(2, 8, REQUIRED, Kind::Number, Lookup::Agencies), // ALC
    Field(10, 14, REQUIRED, Kind::Number, Lookup::Free), // Transaction Total Amount
    Field(24, 8, REQUIRED, Kind::Number, Lookup::Agencies), // Customer ALC
    Field(32, 5, REQUIRED, Kind::Text, Lookup::Offices), // Sender DO Symbol
    Field(37, 3, REQUIRED, ADJUSTMENT, Lookup::Free), // Transaction Set ID
    Field(40, 8, REQUIRED, Kind::Text, Lookup::Free), // Original Document Reference Number
    Field(48, 2, OPTIONAL, Kind::Filler, Lookup::Free), // Filler
    Field(50, 5, REQUIRED, Kind::Text, Lookup::Free), // Original DO Symbol
    Field(55, 8, OPTIONAL, Kind::Text, Lookup::Free), // Voucher Number
    Field(63, 2, OPTIONAL, Kind::Filler, Lookup::Free), // Filler
];

// 812 and 829: detail of 489 bytes.
pub const ADJUSTMENT_DETAIL: [Field; 11] = [
    Field(1, 1, REQUIRED, Kind::OneOf([b'D', b'D']), Lookup::Free), // Record Type
    Field(2, 14, REQUIRED, Kind::Positive, Lookup::Free), // Detail Amount
    Field(16, 60, OPTIONAL, Kind::Text, Lookup::Free), // Adjusting Contact Name
    Field(76, 17, OPTIONAL, Kind::Text, Lookup::Free), // Adjusting Contact Phone Number
    Field(93, 6, REQUIRED, Kind::Number, Lookup::Free), // Original Line Item
    Field(99, 1, OPTIONAL, Kind::OneOf([b'C', b'P']), Lookup::Free), // FY Obligation ID
    Field(100, 27, REQUIRED, Kind::Symbol, Lookup::Symbols), // Sender Treasury Account Symbol
    Field(127, 8, OPTIONAL, Kind::Text, Lookup::Free), // Sender Business Event Type Code
    Field(135, 27, OPTIONAL, Kind::Symbol, Lookup::Symbols), // Receiver Treasury Account Symbol
    Field(162, 8, OPTIONAL, Kind::Text, Lookup::Free), // Receiver Business Event Type Code
    Field(170, 320, OPTIONAL, Kind::Text, Lookup::Free), // Description
];

// 820, 810, 812 and 829: E record of 23 bytes. Every field is required.
pub const SGL_ENTRY: [Field; 7] = [
    Field(1, 1, REQUIRED, Kind::OneOf([b'E', b'E']), Lookup::Free), // Record Type
    Field(2, 1, REQUIRED, Kind::OneOf([b'A', b'A']), Lookup::Free), // SGL Action Flag
    Field(3, 4, REQUIRED, Kind::Number, Lookup::Accounts), // SGL Account Number
    Field(7, 1, REQUIRED, Kind::OneOf([b'S', b'R']), Lookup::Free), // Sender / Receiver SGL Flag
    Field(8, 1, REQUIRED, Kind::OneOf([b'F', b'N']), Lookup::Free), // Federal / Non-Federal Flag
    Field(9, 14, REQUIRED, Kind::Number, Lookup::Free), // SGL Amount
    Field(23, 1, REQUIRED, Kind::OneOf([b'D', b'C']), Lookup::Free), // Debit / Credit Flag
];

// 835: header of 39 bytes.
pub const ZERO_DOLLAR_HEADER: [Field; 8] = [
    Field(1, 1, REQUIRED, Kind::OneOf([b'H', b'H']), Lookup::Free), // Record Type
    Field(2, 8, REQUIRED, Kind::Number, Lookup::Agencies), // ALC
    Field(10, 8, REQUIRED, Kind::Number, Lookup::Agencies), // Customer ALC
    Field(18, 5, REQUIRED, Kind::Text, Lookup::Offices), // Sender DO Symbol
    Field(23, 3, OPTIONAL, Kind::Filler, Lookup::Free), // Filler
    Field(26, 8, OPTIONAL, Kind::Text, Lookup::Free), // Trace Number
    Field(34, 3, OPTIONAL, Kind::Filler, Lookup::Free), // Filler
    Field(37, 3, REQUIRED, ZERO_DOLLAR, Lookup::Free), // Transaction Set ID
];

// 835: detail of 1,056 bytes.
pub const ZERO_DOLLAR_DETAIL: [Field; 31] = [
    Field(1, 1, REQUIRED, Kind::OneOf([b'D', b'D']), Lookup::Free), // Record Type
    Field(2, 16, OPTIONAL, Kind::Text, Lookup::Free), // Accounting Classification Code
    Field(18, 12, OPTIONAL, Kind::Text, Lookup::Free), // Account Classification Reference Number
    Field(30, 60, OPTIONAL, Kind::Text, Lookup::Free), // Contact Name
    Field(90, 17, OPTIONAL, Kind::Text, Lookup::Free), // Contact Phone Number
    Field(107, 6, OPTIONAL, Kind::Text, Lookup::Free), // Contract Line Item Number
    Field(113, 17, REQUIRED, Kind::Text, Lookup::Free), // Contract Number
    Field(130, 2, OPTIONAL, Kind::Filler, Lookup::Free), // Filler
    Field(132, 320, OPTIONAL, Kind::Text, Lookup::Free), // Description
    Field(452, 8, OPTIONAL, Kind::Number, Lookup::Free), // Fiscal Station Number
    Field(460, 22, OPTIONAL, Kind::Text, Lookup::Free), // Invoice Number
    Field(482, 30, OPTIONAL, Kind::Text, Lookup::Free), // JAS Number
    Field(512, 20, OPTIONAL, Kind::Text, Lookup::Free), // Job Number
    Field(532, 320, OPTIONAL, Kind::Text, Lookup::Free), // Miscellaneous Transaction Information
    Field(852, 17, REQUIRED, Kind::Text, Lookup::Free), // Obligating Document Number
    Field(869, 1, OPTIONAL, Kind::OneOf([b'F', b'P']), Lookup::Free), // Pay Flag
    Field(870, 22, OPTIONAL, Kind::Text, Lookup::Free), // Purchase Order Number
    Field(892, 14, OPTIONAL, Kind::Number, Lookup::Free), // Quantity
    Field(906, 27, OPTIONAL, Kind::Symbol, Lookup::Symbols), // Receiver Treasury Account Symbol
    Field(933, 9, OPTIONAL, Kind::Text, Lookup::Free), // Receiver DUNS Number
    Field(942, 4, OPTIONAL, Kind::Text, Lookup::Free), // Receiver DUNS+4 Number
    Field(946, 15, OPTIONAL, Kind::Text, Lookup::Free), // Requisition Number
    Field(961, 27, OPTIONAL, Kind::Symbol, Lookup::Symbols), // Sender Treasury Account Symbol
    Field(988, 9, OPTIONAL, Kind::Text, Lookup::Free), // Sender DUNS Number
    Field(997, 4, OPTIONAL, Kind::Text, Lookup::Free), // Sender DUNS+4 Number
    Field(1001, 15, OPTIONAL, Kind::Text, Lookup::Free), // (ACT) Trace Number
    Field(1016, 2, OPTIONAL, Kind::Text, Lookup::Units), // Unit of Issue
    Field(1018, 14, OPTIONAL, Kind::Positive, Lookup::Free), // Unit Price
    Field(1032, 15, OPTIONAL, Kind::Text, Lookup::Free), // DOD Activity Address Code
    Field(1047, 8, OPTIONAL, Kind::Text, Lookup::Free), // Cross Reference Document Reference Number
    Field(1055, 2, OPTIONAL, Kind::Filler, Lookup::Free), // Filler
];

// 840: header of 39 bytes.
pub const POST_SGL_HEADER: [Field; 7] = [
    Field(1, 1, REQUIRED, Kind::OneOf([b'H', b'H']), Lookup::Free), // Record Type
    Field(2, 8, REQUIRED, Kind::Number, Lookup::Agencies), // ALC
    Field(10, 5, REQUIRED, Kind::Text, Lookup::Free), // Original DO Symbol
    Field(15, 3, OPTIONAL, Kind::Filler, Lookup::Free), // Filler
    Field(18, 8, REQUIRED, Kind::Text, Lookup::Free), // Original Document Reference / Voucher Number
    Field(26, 11, OPTIONAL, Kind::Filler, Lookup::Free), // Filler
    Field(37, 3, REQUIRED, POST_SGL, Lookup::Free), // Transaction Set ID
];

// 840: detail of 262 bytes.
pub const POST_SGL_DETAIL: [Field; 3] = [
    Field(1, 1, REQUIRED, Kind::OneOf([b'D', b'D']), Lookup::Free), // Record Type
    Field(2, 6, REQUIRED, Kind::Number, Lookup::Free), // Original Line Item
    Field(8, 255, OPTIONAL, Kind::Text, Lookup::Free), // SGL Comments
];

// 840: E record of 23 bytes. Every field is required, the filler aside.
pub const POST_SGL_ENTRY: [Field; 7] = [
    Field(1, 1, REQUIRED, Kind::OneOf([b'E', b'E']), Lookup::Free), // Record Type
    Field(2, 1, REQUIRED, Kind::OneOf([b'A', b'E']), Lookup::Free), // SGL Action Flag
    Field(3, 4, REQUIRED, Kind::Number, Lookup::Accounts), // SGL Account Number
    Field(7, 1, OPTIONAL, Kind::Filler, Lookup::Free), // Filler
    Field(8, 1, REQUIRED, Kind::OneOf([b'F', b'N']), Lookup::Free), // Federal / Non-Federal Flag
    Field(9, 14, REQUIRED, Kind::Number, Lookup::Free), // SGL Amount
    Field(23, 1, REQUIRED, Kind::OneOf([b'D', b'C']), Lookup::Free), // Debit / Credit Flag
];

// 820 and 810: the field that is refused, by its first column and its length, the rule, and the other field.
pub const PAYMENT_COMPANIONS: [Companion; 6] = [
    Companion(948, 8, Rule::Needs, 921, 27), // Receiver Business Event Type Code, Receiver Treasury Account Symbol
    Companion(965, 4, Rule::Needs, 956, 9), // Receiver DUNS+4 Number, Receiver DUNS Number
    Companion(1011, 8, Rule::Needs, 984, 27), // Sender Business Event Type Code, Sender Treasury Account Symbol
    Companion(1028, 4, Rule::Needs, 1019, 9), // Sender DUNS+4 Number, Sender DUNS Number
    Companion(1063, 15, Rule::Excludes, 1019, 9), // DOD Activity Address Code, Sender DUNS Number
    Companion(1063, 15, Rule::Excludes, 1028, 4), // DOD Activity Address Code, Sender DUNS+4 Number
];

// 812 and 829.
pub const ADJUSTMENT_COMPANIONS: [Companion; 2] = [
    Companion(127, 8, Rule::Needs, 100, 27), // Sender Business Event Type Code, Sender Treasury Account Symbol
    Companion(162, 8, Rule::Needs, 135, 27), // Receiver Business Event Type Code, Receiver Treasury Account Symbol
];

// 835.
pub const ZERO_DOLLAR_COMPANIONS: [Companion; 4] = [
    Companion(942, 4, Rule::Needs, 933, 9), // Receiver DUNS+4 Number, Receiver DUNS Number
    Companion(997, 4, Rule::Needs, 988, 9), // Sender DUNS+4 Number, Sender DUNS Number
    Companion(1032, 15, Rule::Excludes, 988, 9), // DOD Activity Address Code, Sender DUNS Number
    Companion(1032, 15, Rule::Excludes, 997, 4), // DOD Activity Address Code, Sender DUNS+4 Number
];
