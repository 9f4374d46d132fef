// The words for people: what the codes say, and the names of the Set IDs. Functions, and no Display in six crates: all words stand in one place.
#![tactic(auto)]

ghost use Rattle.std.specs.Prelude.{◌≡◌, option_map};
ghost use Rattle.words.specs.Words.{file_words, register_words, action_words, field_words, record_words, transaction_words, book_words, words_of, name_of};

use layout::set_id::SetId;

// The codes of a file.
fn file_words(code: u16) -> Option<&'static str>
    ensures { option_map (λ s. s.now) result ≡ file_words code }
{
    match code {
        1 => Some("the file is longer than 16,777,216 bytes"),
        2 => Some("the file is empty or does not end in a line feed"),
        3 => Some("record 1 is not the File Identifier, PCA and four spaces"),
        4 => Some("record 2 is not a good Batch Header"),
        5 => Some("record 3 is not the header of a transaction"),
        6 => Some("a file with this File ID Number was posted before"),
        7 => Some("the packet buffer is too short for the file's transactions"),
        8 => Some("the book has no place for another mark"),
        _ => None,
    }
}

// The codes of a register's text.
fn register_words(code: u16) -> Option<&'static str>
    ensures { option_map (λ s. s.now) result ≡ register_words code }
{
    match code {
        11 => Some("the keys' width is not 1 to 27, or the text is not whole keys"),
        12 => Some("the keys are not strictly ascending"),
        13 => Some("the map is not 1,250 bytes long"),
        _ => None,
    }
}

// The codes of an action on a book.
fn action_words(code: u16) -> Option<&'static str>
    ensures { option_map (λ s. s.now) result ≡ action_words code }
{
    match code {
        14 => Some("the book holds this key already"),
        15 => Some("the book's places are used up"),
        16 => Some("the book holds no such entry to take from"),
        17 => Some("the amount is above the open amount"),
        18 => Some("a mark's count is above 16,777,216"),
        _ => None,
    }
}

// The codes of a field.
fn field_words(code: u16) -> Option<&'static str>
    ensures { option_map (λ s. s.now) result ≡ field_words code }
{
    match code {
        21 => Some("a required field is missing"),
        22 => Some("the field has a wrong shape or value"),
        51 => Some("the key is not in its register"),
        _ => None,
    }
}

// The codes of a record.
fn record_words(code: u16) -> Option<&'static str>
    ensures { option_map (λ s. s.now) result ≡ record_words code }
{
    match code {
        30 => Some("the header is too short or its Set ID is unknown"),
        31 => Some("the record's letter is not allowed here"),
        32 => Some("the record has a wrong length"),
        33 => Some("the field does not go with another field of the record"),
        34 => Some("the amount is not the quantity times the unit price"),
        _ => None,
    }
}

// The codes of a transaction.
fn transaction_words(code: u16) -> Option<&'static str>
    ensures { option_map (λ s. s.now) result ≡ transaction_words code }
{
    match code {
        41 => Some("the number of details is not allowed"),
        42 => Some("the detail's E records are not a good set"),
        43 => Some("the total is not the sum of the details"),
        _ => None,
    }
}

// The codes of a transaction against the book.
fn book_words(code: u16) -> Option<&'static str>
    ensures { option_map (λ s. s.now) result ≡ book_words code }
{
    match code {
        61 => Some("the original is not in the book, or cannot be adjusted"),
        62 => Some("the original is more than 90 days old"),
        63 => Some("the original has no such line"),
        64 => Some("the detail does not agree with the original's line"),
        65 => Some("the total is above the open amount of the original"),
        66 => Some("the book holds this reference, or one of its lines, already"),
        67 => Some("the book has too few places for the entry and its lines"),
        _ => None,
    }
}

// What a code says.
pub fn words_of(code: u16) -> &'static str
    ensures { result.now ≡ words_of code }
{
    file_words(code)
        .or(register_words(code))
        .or(action_words(code))
        .or(field_words(code))
        .or(record_words(code))
        .or(transaction_words(code))
        .or(book_words(code))
        .unwrap_or("no such code")
}

// What kind of bill a Set ID stands for.
pub fn name_of(set_id: SetId) -> &'static str
    ensures { result.now ≡ name_of set_id }
{
    match set_id {
        SetId::Payment => "payment",
        SetId::Collection => "collection",
        SetId::ReceiverAdjustment => "receiver's adjustment",
        SetId::SenderAdjustment => "sender's adjustment",
        SetId::ZeroDollar => "zero dollar",
        SetId::PostSgl => "post SGL",
    }
}
