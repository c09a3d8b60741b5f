// The places that a byte may have in a field.
ghost use Rattle.std.specs.Prelude.{◌≡◌};
ghost use Rattle.csv.specs.declared.parser.State.{State};
ghost use Rattle.csv.specs.Machine.{step};
ghost use Rattle.csv.specs.Reading.{default_config};
ghost use Rattle.sq_input.specs.Fields.{field_place, IsUsual};

/// The byte that ends a field within a record.
pub(crate) const COMMA: u8 = b',';

// The byte that surrounds a field with commas or line ends in it.
const QUOTE: u8 = b'"';

/// Where the bytes read so far end.
#[derive(Clone, Copy, Debug, PartialEq, Eq)]
pub(crate) enum FieldPlace {
    /// At the start of a field.
    Start,
    /// In a field, outside quotes.
    Unquoted,
    /// Inside the quotes of a field.
    Quoted,
    /// After a quote inside the quotes of a field, which closes them unless another quote follows.
    AfterQuote,
}

impl FieldPlace {
    /// The place after `byte`, as for the reader of records.
    pub(crate) fn after(self, byte: u8) -> FieldPlace
        ensures { (state : State) → IsUsual state → self ≡ field_place state
            → result ≡ field_place (step default_config state byte).0 }
    {
        match self {
            FieldPlace::Quoted if byte == QUOTE => FieldPlace::AfterQuote,
            FieldPlace::Quoted => FieldPlace::Quoted,
            FieldPlace::Start | FieldPlace::AfterQuote if byte == QUOTE => FieldPlace::Quoted,
            _ if matches!(byte, COMMA | b'\r' | b'\n') => FieldPlace::Start,
            _ => FieldPlace::Unquoted,
        }
    }
}
