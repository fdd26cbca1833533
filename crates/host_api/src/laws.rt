//! A law of targets, which is the contract of a function that does nothing.
ghost use Rattle.std.specs.Prelude.{◌≡◌, ◌↔◌, ℕ, List, Bool, Some};
ghost use Rattle.host_api.specs.Fits.{Fits};
ghost use Rattle.host_api.specs.Targets.{Part, Bindings, fit};

/// A path fits a pattern if and only if it is made from it: one segment for each part, without a slash, which is the part's word if the
/// part is a word; and after that nothing or, if the pattern has a rest, a text that begins with a slash (RFC 3986, section 3.3).
pub fn a_path_fits_what_it_is_made_of()
    ensures { (parts : List Part) (has_rest : Bool) (path : List ℕ) (bindings : Bindings)
        → (fit parts has_rest path ≡ Some bindings) ↔ Fits parts has_rest path bindings }
{}
