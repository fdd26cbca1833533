//! What the definition of a Range field's grammar says of each form.
ghost use Rattle.std.specs.Prelude.{Some, None, [], ◌∷◌, ◌++◌, codes};
ghost use Rattle.range_spec.specs.Asks.{AsksRanges};

use range_spec::Spec;

/// What the definition says of a value with each form of the grammar.
fn each_form_is_asked_for()
    ensures { AsksRanges (codes "Bytes=20-,, 0-0 ,-5")
        (Spec.From 20 None ∷ Spec.From 0 (Some 0) ∷ Spec.Suffix 5 ∷ []) }
{}

#[test]
fn the_definition_takes_each_form() {
    // The proof of its clause is the test.
    each_form_is_asked_for();
}
