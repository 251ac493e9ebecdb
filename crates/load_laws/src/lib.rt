// Laws of the lines of a load: what each gives, said of its columns.
#![tactic(auto)]

ghost use Rattle.load_laws.specs.Lines.{GivesCallExactly, FaultsInOrder, FirstColumnNamed, AnyOrderOfNames};

/// When a line gives a call and which, when it gives each fault, and that the order of the names does not matter.
#[tactic(auto, using(crate::proofs::Laws::gives_call_exactly, crate::proofs::Laws::faults_in_order, crate::proofs::Laws::first_column_named, crate::proofs::Laws::any_order_of_names))]
pub fn lines_stand() -> u8
    ensures calls { GivesCallExactly }
    ensures order { FaultsInOrder }
    ensures first { FirstColumnNamed }
    ensures names { AnyOrderOfNames }
{
    0
}
