// Theorems on the definitions of specs/: each is the contract of a function, so that the check asks for its proof.
ghost use Rattle.graph.specs.Examples.{Worked};

/// The worked examples, computed from the definitions of specs/.
pub fn worked_examples_stand() -> u8
    ensures { Worked }
{
    0
}

ghost use Rattle.graph.specs.Reach.{ReachAgrees};

/// What is computed as reachable is what the definition calls reachable.
pub fn reachability_stands() -> u8
    ensures { ReachAgrees }
{
    0
}

ghost use Rattle.graph.specs.Sound.{StaysSound};

/// A new heap is sound, and every call keeps it so.
pub fn soundness_stands() -> u8
    ensures { StaysSound }
{
    0
}

ghost use Rattle.graph.specs.Laws.{RunsAgree, FullCollects, NumbersEncoded, ReferencesApart, ReferencesRead, HeadersRead, WordsTell};

/// Laws of runs, and of the words that values, references and headers have.
pub fn laws_stand() -> u8
    ensures runs { RunsAgree }
    ensures full { FullCollects }
    ensures numbers { NumbersEncoded }
    ensures apart { ReferencesApart }
    ensures references { ReferencesRead }
    ensures headers { HeadersRead }
    ensures words { WordsTell }
{
    0
}

ghost use Rattle.graph.specs.Sliding.{KeptSlide, ReachableSlide};

/// Where kept objects slide to, by the places of before: each so far outward that on its outer side there is room for the kept objects of its
/// side that stood there, and for nothing else; and the order stays. A collection keeps exactly the reachable objects.
pub fn sliding_stands() -> u8
    ensures any { KeptSlide }
    ensures reachable { ReachableSlide }
{
    0
}

ghost use Rattle.graph.specs.Altered.{CallsAlter};
ghost use Rattle.graph.specs.Runs.{CollectionsUnnoticed};

/// Which words each call alters: those that are named for it and no others; refusal 31 and a collection leave the packed words, and a
/// call that had to collect to make an object leaves those and the object, next to the gap.
pub fn alterations_stand() -> u8
    ensures { CallsAlter }
{
    0
}

/// Lists of calls that differ only in their collections have the same answers to all other calls.
pub fn collections_unnoticed() -> u8
    ensures { CollectionsUnnoticed }
{
    0
}

ghost use Rattle.graph.specs.ReadBack.{NumbersKept, RawWordsKept, ValuesKept};

/// What was stored is read back: the number of a handle, the word of a raw field, and whatever a field may hold as its value.
pub fn stored_is_read_back() -> u8
    ensures numbers { NumbersKept }
    ensures raws { RawWordsKept }
    ensures values { ValuesKept }
{
    0
}

ghost use Rattle.graph.specs.Kept.{StoredStays};

/// What was stored stays, through whatever is called, until a call that was granted overwrites it: a handle's value, a raw field, a value field.
pub fn stored_stays() -> u8
    ensures { StoredStays }
{
    0
}

ghost use Rattle.graph.specs.Nearest.{FillIsNearest};

/// How full a heap is told to be is the whole number nearest to its live words in a hundred of its words, a half
/// upward, and there is exactly one such number; 0 where it has no words.
pub fn fill_is_nearest() -> u8
    ensures { FillIsNearest }
{
    0
}

ghost use Rattle.graph.specs.Order.{OrderIsFree, OrderExists};

/// The order in which objects are marked is left free: whichever it is, exactly the reachable objects are marked.
/// Every graph has such an order.
pub fn order_of_marking_is_free() -> u8
    ensures free { OrderIsFree }
    ensures some { OrderExists }
{
    0
}
