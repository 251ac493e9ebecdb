// Theorems on what a collection keeps: what such a function ensures is the theorem.
ghost use Rattle.space.specs.Collections.{FieldsStay};

/// After a collection each kept object has, at its new place, the words of before, and each of its references goes to the same object. So it is with the handles.
pub fn fields_stay() -> u8
    ensures { FieldsStay }
{
    0
}
