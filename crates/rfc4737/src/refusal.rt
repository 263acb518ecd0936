// What is returned instead of an answer. specs/Refusals.antt says the case of each refusal and its number; 0 is the number of none.

ghost use Rattle.std.specs.Prelude.{◌≡◌};
ghost use Rattle.rfc4737.specs.Refused.{number_of, refusal_in};

// The refusals, in the order of their numbers.
#[derive(Clone, Copy, Debug, PartialEq, Eq)]
pub enum Refusal {
    EndsEarly = 1,
    OctetsFollow,
    LongLabel,
    SentOutside,
    ManyArrivals,
    NumberOutside,
    TimeBack,
    OutputShort,
    AskedOutside,
    StateUnfit,
    StateFull,
    ListsDiffer,
    OctetOutside,
    LineMalformed,
    RecordCut,
    NoStream,
    FragmentUnfit,
    SecondsOver,
}

impl Refusal {
    // The refusal's number, 1 to 18. A method and not `From`, since it is asked of a refusal that was just returned, as `refusal.number()`.
    pub fn number(self) -> u32
        ensures { result ≡ number_of self }
    {
        self as u32
    }
}

// The number of no refusal, for answers that C receives.
pub const NONE: u32 = 0;

// The number of the refusal in a result, `NONE` if it has none. A function and no `From`: both types are another crate's.
pub fn number_in<T: Drop>(checked: Result<T, Refusal>) -> u32
    ensures { result ≡ refusal_in checked }
{
    match checked {
        Ok(_) => NONE,
        Err(refusal) => refusal.number(),
    }
}
