//! Laws of changes, each the contract of a function that does nothing.
ghost use Rattle.std.specs.Prelude.{◌≡◌, ◌≢◌, ◌↔◌, ◌⊎◌, ℕ, Bool, true, false, not, List, [], ◌∷◌, ◌++◌, Option, None, Some, Ok, Err};
ghost use Rattle.std.specs.FinMap as map;
ghost use Rattle.host_names.specs.Digests.{digest_of};
ghost use Rattle.byte_view.specs.Contents.{AreDigested, Contents, with_file};
ghost use Rattle.host_names.specs.declared.cells.Cell.{Cell};
ghost use Rattle.host_names.specs.declared.cells.Cell.TheVariants as cell;
ghost use Rattle.host_names.specs.declared.names.AliasName.{AliasName};
ghost use Rattle.host_names.specs.declared.names.SiteName.{SiteName};
ghost use Rattle.site_state.specs.Files.{Paths};
ghost use Rattle.site_state.specs.Listings.{Listed};
ghost use Rattle.site_state.specs.States.{State, draft_at, kept_at};
ghost use Rattle.site_state.specs.declared.values.Draft.{Draft};
ghost use Rattle.site_state.specs.declared.values.Value.{Value};
ghost use Rattle.site_state.specs.declared.values.Value.TheVariants as value;
ghost use Rattle.site_change.specs.declared.commands.Command.{Command};
ghost use Rattle.site_change.specs.declared.commands.Command.TheVariants.{Open, Publish, Cancel, Remove, Rename, RenameFolder, MoveAlias, RemoveAlias, Restore, RemoveDeploy};
ghost use Rattle.site_change.specs.Changes.{IsWithin, applied, changes, refusal, run_from, touches};
ghost use Rattle.site_change.specs.Plans.{IsDifference};
ghost use Rattle.site_change.specs.Refusals.{IsRefusedBy};
ghost use Rattle.site_change.specs.Laws.{AgreeOn, IsLocal, IsPartOfDeploy, IsPartOfPatch, LeavesDeploy, LeavesOut, LeavesPatch, KeepsRunning, IsBelow, LeavesFolder};
ghost use Rattle.site_change.specs.TouchedCells.{AreTouched, is_touched};
ghost use Rattle.site_change.specs.Uploaded.{AreUploaded, IsUploaded};
ghost use Rattle.site_state.specs.declared.changes.Change.{Change};
ghost use Rattle.site_change.specs.declared.refusals.ChangeError.TheVariants.{OutOfMemory, Refused};
ghost use Rattle.site_change.specs.declared.refusals.ChangeRefusal.{ChangeRefusal};
ghost use Rattle.site_change.specs.declared.touched.Touched.{Touched};
ghost use Rattle.host_names.specs.declared.digests.Digest.{Digest};

/// A command reads and writes only what it touches. In two states that agree there, it gets the same answer, touches the same cells, and
/// leaves the same in them. Every other cell stays as it was, and what the command changes lies within what it touches.
pub fn commands_are_local()
    ensures { (command : Command) (number : ℕ) (state : State) (uploads : Contents) →
        IsLocal command number state uploads }
{}

/// A change can be left out of a row of accepted commands if no later one touches a cell that it changed. The later ones are then accepted
/// as before, and the state differs in those cells alone: each has what was there before the change.
pub fn a_change_can_be_left_out()
    ensures { (uploads : Contents) (state : State) (change : ℕ × Command) (later : List (ℕ × Command)) →
        LeavesOut uploads state change later }
{}

/// A row of accepted commands stays accepted when more is uploaded, and leads to the same state.
pub fn accepted_stays_accepted()
    ensures { (uploads more : Contents) (state : State) (commands : List (ℕ × Command)) →
        KeepsRunning uploads more state commands }
{}

/// `IsWithin` is reflexive and transitive, and uploads are within the same uploads with one file more.
pub fn uploads_are_within_more()
    ensures itself { (uploads : Contents) → IsWithin uploads uploads }
    ensures file { (uploads : Contents) (bytes : List ℕ) → IsWithin uploads (with_file uploads bytes) }
    ensures on { (uploads more most : Contents) → IsWithin uploads more → IsWithin more most → IsWithin uploads most }
{}

/// Two files that were uploaded to one place are the same if and only if their digests are. Nothing is said of other files.
pub fn uploaded_files_are_told_by_their_digests()
    ensures { (uploads : Contents) (a b : List ℕ) → IsUploaded uploads a → IsUploaded uploads b → (digest_of a ≡ digest_of b) ↔ (a ≡ b) }
{}

/// If each served or kept file was uploaded, that is so after an accepted command, and after a row of them.
pub fn accepted_commands_leave_uploaded_files()
    ensures command { (command : Command) (number : ℕ) (state : State) (uploads : Contents) → AreDigested uploads → AreUploaded uploads state
        → refusal command number state uploads ≡ None → AreUploaded uploads (applied command number state uploads) }
    ensures run { (uploads : Contents) (state after : State) (commands : List (ℕ × Command)) → AreDigested uploads → AreUploaded uploads state
        → run_from uploads state commands ≡ Some after → AreUploaded uploads after }
{}

/// A command changes exactly the cells in which the states before and after it differ.
pub fn changes_are_where_the_states_differ()
    ensures { (command : Command) (number : ℕ) (state : State) (uploads : Contents) (c : Cell) →
        (changes command number state uploads c ≡ true) ↔ (map.get state c ≢ map.get (applied command number state uploads) c) }
{}

/// An opening touches the cell of its draft, and no other.
pub fn an_opening_touches_its_draft_alone()
    ensures { (site : SiteName) (files : Listed) (auto : Bool) (number : ℕ) (state : State) (c : Cell) →
        (touches (Open site files auto) number state c ≡ true) ↔ (c ≡ cell.Draft site number) }
{}

/// A publish touches the draft of its number. A full deploy's publish also touches the kept deploy of that number and each path of its
/// site, whether or not a file is there; a patch's also touches the listed paths. If there is no such draft, it touches nothing else.
pub fn a_publish_touches_its_deploy_alone()
    ensures opened { (site : SiteName) (m number : ℕ) (state : State) (draft : Draft) (c : Cell) →
        draft_at state site m ≡ Some draft → draft.files.0 ≡ false →
        (touches (Publish site m) number state c ≡ true) ↔ IsPartOfDeploy site m c }
    ensures patched { (site : SiteName) (m number : ℕ) (state : State) (draft : Draft) (c : Cell) →
        draft_at state site m ≡ Some draft → draft.files.0 ≡ true →
        (touches (Publish site m) number state c ≡ true) ↔ IsPartOfPatch site m draft.files.1 c }
    ensures unknown { (site : SiteName) (m number : ℕ) (state : State) (c : Cell) → draft_at state site m ≡ None →
        (touches (Publish site m) number state c ≡ true) ↔ (c ≡ cell.Draft site m) }
{}

/// What an accepted publish of a patch leaves. Where the patch lists a digest, the site serves the bytes that were uploaded under it; where
/// it lists a removal, nothing; and at every other path, what it served before. The draft is gone, and no deploy is kept. All else stays:
/// other sites, kept deploys, aliases and other drafts.
pub fn a_published_patch_changes_what_it_lists()
    ensures { (site : SiteName) (m number : ℕ) (state : State) (uploads : Contents) (draft : Draft) →
        draft_at state site m ≡ Some draft → draft.files.0 ≡ true → refusal (Publish site m) number state uploads ≡ None →
        LeavesPatch site m uploads draft.files.1 state (applied (Publish site m) number state uploads) }
{}

/// What an accepted publish of a full deploy leaves. At each listed path the site serves the bytes that were uploaded under the listed
/// digest, and at every other path nothing. The files that it serves are kept under the deploy's number, and the draft is gone. All else
/// stays: other sites, other kept deploys, aliases and other drafts.
pub fn a_published_deploy_is_served_and_kept()
    ensures { (site : SiteName) (m number : ℕ) (state : State) (uploads : Contents) (draft : Draft) →
        draft_at state site m ≡ Some draft → draft.files.0 ≡ false → refusal (Publish site m) number state uploads ≡ None →
        LeavesDeploy site m uploads draft.files.1 state (applied (Publish site m) number state uploads) }
{}

/// A restore touches the draft and the kept deploy of its number. If a deploy is kept, or a full one is open, it also touches each path of
/// its site, whether or not a file is there; if a patch is open, the listed paths; if there is neither, nothing else.
pub fn a_restoring_touches_its_deploy_alone()
    ensures kept { (site : SiteName) (m number : ℕ) (state : State) (tree : Paths (List ℕ)) (c : Cell) →
        kept_at state site m ≡ Some tree →
        (touches (Restore site m) number state c ≡ true) ↔ IsPartOfDeploy site m c }
    ensures opened { (site : SiteName) (m number : ℕ) (state : State) (draft : Draft) (c : Cell) →
        kept_at state site m ≡ None → draft_at state site m ≡ Some draft → draft.files.0 ≡ false →
        (touches (Restore site m) number state c ≡ true) ↔ IsPartOfDeploy site m c }
    ensures patched { (site : SiteName) (m number : ℕ) (state : State) (draft : Draft) (c : Cell) →
        kept_at state site m ≡ None → draft_at state site m ≡ Some draft → draft.files.0 ≡ true →
        (touches (Restore site m) number state c ≡ true)
        ↔ ((c ≡ cell.Kept site m) ⊎ IsPartOfPatch site m draft.files.1 c) }
    ensures unknown { (site : SiteName) (m number : ℕ) (state : State) (c : Cell) →
        kept_at state site m ≡ None → draft_at state site m ≡ None →
        (touches (Restore site m) number state c ≡ true) ↔ ((c ≡ cell.Draft site m) ⊎ (c ≡ cell.Kept site m)) }
{}

/// The removal of a deploy touches the deploy and each alias of its site, whether or not that alias is there.
pub fn the_removal_of_a_deploy_touches_it_and_the_aliases()
    ensures { (site : SiteName) (m number : ℕ) (state : State) (c : Cell) →
        (touches (RemoveDeploy site m) number state c ≡ true)
        ↔ ((c ≡ cell.Kept site m) ⊎ ((name : AliasName) × (c ≡ cell.Alias site name))) }
{}

/// What the commands of few cells touch, which is all that they touch: a cancel its draft; a removal its path; a rename both paths; the
/// move of an alias that alias and the kept deploy, which it reads; and the removal of an alias that alias.
pub fn commands_of_few_cells_touch_them_alone()
    ensures cancelled { (site : SiteName) (m number : ℕ) (state : State) (c : Cell) →
        (touches (Cancel site m) number state c ≡ true) ↔ (c ≡ cell.Draft site m) }
    ensures removed { (site : SiteName) (path : List ℕ) (number : ℕ) (state : State) (c : Cell) →
        (touches (Remove site path) number state c ≡ true) ↔ (c ≡ cell.Live site path) }
    ensures renamed { (site : SiteName) (source target : List ℕ) (number : ℕ) (state : State) (c : Cell) →
        (touches (Rename site source target) number state c ≡ true) ↔ ((c ≡ cell.Live site source) ⊎ (c ≡ cell.Live site target)) }
    ensures moved { (site : SiteName) (name : AliasName) (m number : ℕ) (state : State) (c : Cell) →
        (touches (MoveAlias site name m) number state c ≡ true) ↔ ((c ≡ cell.Kept site m) ⊎ (c ≡ cell.Alias site name)) }
    ensures given_up { (site : SiteName) (name : AliasName) (number : ℕ) (state : State) (c : Cell) →
        (touches (RemoveAlias site name) number state c ≡ true) ↔ (c ≡ cell.Alias site name) }
{}

/// The renaming of a folder touches each path of its site below the one folder or the other, whether or not a file is there.
pub fn the_renaming_of_a_folder_touches_all_paths_below()
    ensures { (site : SiteName) (source target : List ℕ) (number : ℕ) (state : State) (c : Cell) →
        (touches (RenameFolder site source target) number state c ≡ true) ↔ (IsBelow site source c ⊎ IsBelow site target c) }
{}

/// What an accepted renaming of a folder leaves. What was served below the one folder is served below the other, at the same path from there
/// on; below the one nothing is served. All else stays.
pub fn a_renamed_folder_is_served_elsewhere()
    ensures { (site : SiteName) (source target : List ℕ) (number : ℕ) (state : State) (uploads : Contents) →
        refusal (RenameFolder site source target) number state uploads ≡ None →
        LeavesFolder site source target state (applied (RenameFolder site source target) number state uploads) }
{}

/// Each of these relations is refuted for one wrong answer, so none of them holds of everything.
pub fn wrong_answers_are_refused()
    ensures difference { (state : State) (change : Change) (more : List Change) → ¬ (IsDifference state state (change ∷ more)) }
    ensures touched { (touched : Touched) (site : SiteName) → ¬ (AreTouched site (λ c. not (is_touched touched c)) touched) }
    ensures site { (site : SiteName) (test : Cell → Bool) (touched : Touched) → touched.site ≢ site → ¬ (AreTouched site test touched) }
    ensures uploaded { (site : SiteName) (path file : List ℕ) → ¬ (AreUploaded map.empty (map.insert map.empty (cell.Live site path) (value.Live file))) }
    ensures patch { (site : SiteName) (m : ℕ) (uploads : Contents) (files : Paths (Option Digest)) (before after : State) (v : Value)
        → ¬ (LeavesPatch site m uploads files before (map.insert after (cell.Draft site m) v)) }
    ensures deploy { (site : SiteName) (m : ℕ) (uploads : Contents) (files : Paths (Option Digest)) (before after : State) (v : Value)
        → ¬ (LeavesDeploy site m uploads files before (map.insert after (cell.Draft site m) v)) }
    ensures folder { (site : SiteName) (source target rest : List ℕ) (before after : State) (v : Value)
        → ¬ (LeavesFolder site source target before (map.insert after (cell.Live site (source ++ 47 ∷ rest)) v)) }
    ensures agree { (state : State) (c : Cell) (v : Value) → map.get state c ≡ None → ¬ (AgreeOn (λ c. true) state (map.insert state c v)) }
    ensures within { (contents : Contents) (digest : Digest) (bytes : List ℕ) → ¬ (IsWithin (map.insert contents digest bytes) map.empty) }
{}

/// No reason to refuse is left out, made up, or reported as out of memory.
pub fn refusals_have_a_reason()
    ensures accepted { (reason : ChangeRefusal) → ¬ (IsRefusedBy {A = ℕ} (Some reason) (Ok 0)) }
    ensures refused { (reason : ChangeRefusal) → ¬ (IsRefusedBy {A = ℕ} None (Err (Refused reason))) }
    ensures memory { (reason : ChangeRefusal) → ¬ (IsRefusedBy {A = ℕ} (Some reason) (Err OutOfMemory)) }
{}
