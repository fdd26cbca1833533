//! Laws of what is found in a state and a draft, each the contract of a function that does nothing.
ghost use Rattle.std.specs.FinMap as map;
ghost use Rattle.std.specs.Prelude.{ℕ, [], ◌∷◌, Option, None, Some};
ghost use Rattle.byte_view.specs.Contents.{Contents};
ghost use Rattle.host_names.specs.declared.cells.Cell.TheVariants as cell;
ghost use Rattle.host_names.specs.declared.digests.Digest.{Digest};
ghost use Rattle.host_names.specs.declared.names.AliasName.{AliasName};
ghost use Rattle.host_names.specs.declared.names.SiteName.{SiteName};
ghost use Rattle.site_state.specs.Aliases.{IsLeastAlias, alias_for};
ghost use Rattle.site_state.specs.Changes.{AreOfKindOn};
ghost use Rattle.site_state.specs.Files.{IsByPath, Paths};
ghost use Rattle.site_state.specs.Missing.{AreMissing, IsLeastMissing, least_missing_of};
ghost use Rattle.site_state.specs.Named.{AliasesNamed};
ghost use Rattle.site_state.specs.States.{AreOfKind, State};
ghost use Rattle.site_state.specs.declared.changes.Side.TheVariants.{Before, After};
ghost use Rattle.site_state.specs.declared.values.Value.TheVariants as value;

/// The least missing digest is listed and missing, and no lesser digest is. There is none only if nothing is missing.
pub fn the_least_missing_digest_is_least()
    ensures { (uploads : Contents) (files : Paths (Option Digest)) → IsLeastMissing uploads files (least_missing_of uploads files) }
{}

/// The alias that is found for a deploy names it, and no alias before it by name does. None is found only if no alias of the site names the
/// deploy.
pub fn the_alias_for_a_deploy_is_least()
    ensures { (state : State) (site : SiteName) (m : ℕ) → IsLeastAlias state site m (alias_for state site m) }
{}

/// Each relation that the contracts of states name is refuted for one wrong answer, so none of them holds of everything.
pub fn wrong_answers_are_refused()
    ensures least_alias { (site : SiteName) (m : ℕ) (name : AliasName) → ¬ (IsLeastAlias map.empty site m (Some name)) }
    ensures by_path { ¬ (IsByPath {X = ℕ} (([], 0) ∷ ([], 0) ∷ [])) }
    ensures missing { (contents : Contents) (digest : Digest) → ¬ (AreMissing contents [] (digest ∷ [])) }
    ensures least_missing { (contents : Contents) (digest : Digest) → ¬ (IsLeastMissing contents [] (Some digest)) }
    ensures of_kind { (site : SiteName) (n : ℕ) → ¬ (AreOfKind (map.insert map.empty (cell.Kept site n) (value.Alias 0))) }
    ensures after { (site : SiteName) → ¬ (AreOfKindOn After (record { cell = cell.Kept site 1; before = None; after = Some (value.Alias 0) } ∷ [])) }
    ensures before { (site : SiteName) → ¬ (AreOfKindOn Before (record { cell = cell.Kept site 1; before = Some (value.Alias 0); after = None } ∷ [])) }
    ensures named { (site : SiteName) (name : AliasName) (m : ℕ) → ¬ (AliasesNamed (map.insert map.empty (cell.Alias site name) (value.Alias m))) }
{}
