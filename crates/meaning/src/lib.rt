//! Laws of the definitions of recorded lists and sessions, which the recorder, the immediate context and the session
//! stand on.
//!
//! The definitions (gfxspec/specs) find settings, open queries and issues by looking back over all earlier commands and
//! know no state that goes along; the code keeps state. These laws say what one more command or step changes, so that the
//! two meet. What an immediate context keeps, what it shows and when it stands for a session is defined here too.
#![tactic(auto)]

ghost use Rattle.std.specs.Prelude.{◌≡◌, ◌<◌, [], ◌∷◌, ◌++◌, length, ℕ, Bool, true, false, List, Option, Some};
ghost use Rattle.gfxspec.specs.declared.TheConstants.{QUERY_LIMIT};
ghost use Rattle.gfxspec.specs.declared.geometry.Size.{Size};
ghost use Rattle.gfxspec.specs.declared.pixel.Pixel.{Pixel};
ghost use Rattle.gfxspec.specs.Items.{Item, after_items, issue_count};
ghost use Rattle.gfxspec.specs.Commands.{Command};
ghost use Rattle.gfxspec.specs.Recorded.{settings_after, queries_open, open_after, issues, items};
ghost use Rattle.gfxspec.specs.Session.{Step, Records, Executes, Flushes, items_of_session, settings_now, open_now, last_issue, pending};
ghost use Rattle.gfxspec.specs.Predication.{performed, results_behind, performed_session};
ghost use Rattle.gfxspec.specs.Refusals.{is_among};
ghost use Rattle.gfxspec.specs.Accepted.{IsAccepted, AreAccepted};
ghost use Rattle.meaning.specs.OneMore.{open_with};
ghost use Rattle.meaning.specs.Over.{TilesSum, CountsAdd};
ghost use Rattle.meaning.specs.Renumbering.{IssuesRenumber};
ghost use Rattle.meaning.specs.Contexts.{Context, HasRun, pixels_after, result_after, result_at, with_counts, shown, answered, performed_next};
ghost use Rattle.meaning.specs.Standing.{settled, issues_begun, Follows, IsNew, Stands, Shows};

/// A flush, wherever it stands, changes no item, setting or open query of a session.
pub fn flush_changes_nothing()
    ensures items { (size : Size) (before after : List Step) → items_of_session (performed_session size (before ++ Flushes ∷ after)) ≡ items_of_session (performed_session size (before ++ after)) }
    ensures settings { (before after : List Step) → settings_now (before ++ Flushes ∷ after) ≡ settings_now (before ++ after) }
    ensures queries { (before after : List Step) → open_now (before ++ Flushes ∷ after) ≡ open_now (before ++ after) }
{}

/// The settings of the immediate context are those behind its pending list, which begins with the kept ones.
pub fn pending_list_has_the_settings()
    ensures { (steps : List Step) → settings_after (pending steps) ≡ settings_now steps }
{}

/// Its open queries are those of its pending list, where none was open at the last run.
pub fn pending_list_has_the_open_queries()
    ensures { (steps : List Step) → open_now (settled steps) ≡ [] → queries_open (pending steps) ≡ open_now steps }
{}

/// One more command begins an issue, ends those of a query, or leaves the open issues as they are.
pub fn one_more_command_and_the_open_issues()
    ensures { (earlier : List Command) (c : Command) → open_after (earlier ++ c ∷ []) ≡ open_with (issues earlier) c (open_after earlier) }
{}

/// What a pixel holds after two lists of items is what the second makes of what the first left.
pub fn items_fold_in_parts()
    ensures { (front back : List Item) (x y : ℕ) (old : Pixel) →
        after_items (front ++ back) x y old ≡ after_items back x y (after_items front x y old) }
{}

/// What isn't performed sets no state, and begins and ends no issue.
pub fn what_is_performed_has_the_state_of_all()
    ensures settings { (results : ℕ → Bool) (list : List Command) → settings_after (performed results list) ≡ settings_after list }
    ensures issues { (results : ℕ → Bool) (list : List Command) → issues (performed results list) ≡ issues list }
    ensures open { (results : ℕ → Bool) (list : List Command) → open_after (performed results list) ≡ open_after list }
    ensures settings_now { (size : Size) (steps : List Step) → settings_now (performed_session size steps) ≡ settings_now steps }
    ensures open_now { (size : Size) (steps : List Step) → open_now (performed_session size steps) ≡ open_now steps }
    ensures last { (size : Size) (steps : List Step) (q : ℕ) → last_issue q (performed_session size steps) ≡ last_issue q steps }
{}

/// No accepted list begins the query of the predicate in force, so the results before a list are those at each of its commands.
pub fn predicates_are_apart_from_issues()
    ensures apart { (list : List Command) → AreAccepted list → (p : ℕ × Bool) → (settings_after list).predicate ≡ Some p → is_among p.0 (issues list) ≡ false }
    ensures pending { (size : Size) (steps : List Step) → open_now (settled steps) ≡ [] → AreAccepted (pending steps)
        → pending (performed_session size steps) ≡ performed (results_behind size (performed_session size (settled steps))) (pending steps) }
{}

/// The count of an issue over a target is the sum of its counts over the tiles.
pub fn tiles_sum()
    ensures { TilesSum }
{}

/// The count of two lists of items, one behind the other, is that of the first and that of the second from what the first
/// left.
pub fn counts_add()
    ensures { CountsAdd }
{}

/// Behind commands that leave no query open a list has its own pixels and counts.
pub fn issues_renumber()
    ensures { IssuesRenumber }
{}

/// An issue lies in one run: where each draw and clear is performed, its count over a session is its count over the pending list, or over the executed list, that
/// began it, from the pixels that this list finds.
pub fn an_issue_lies_in_one_run()
    ensures pending { (steps : List Step) → open_now (settled steps) ≡ []
        → Follows (issues_begun (settled steps)) (items_of_session (settled steps)) (pending steps) (items_of_session steps) }
    ensures executed { (steps : List Step) (list : List Command) (restore : Bool) → open_now steps ≡ []
        → Follows (issues_begun steps) (items_of_session steps) list (items_of_session (steps ++ Executes list restore ∷ [])) }
{}

/// Counts that are stored one issue after the other, each under its query, are the results after a list.
pub fn counts_stored_in_order_are_the_results()
    ensures { (size : Size) (list : List Command) (pixels : ℕ → ℕ → Pixel) (results : List (Option ℕ)) (q : ℕ) → q < length results
        → result_at (with_counts 0 (λ k. issue_count k (items list) size.width size.height pixels) (issues list) results) q
        ≡ result_after size list pixels q (result_at results q) }
{}

/// Behind a run a context shows what the list made of what it showed. The empty list changes nothing.
pub fn a_run_keeps_what_is_shown()
    ensures pixels { (size : Size) (list : List Command) (restore : Bool) (old new : Context) → HasRun size list restore old new
        → (x y : ℕ) → x < size.width → y < size.height → shown new x y ≡ pixels_after (performed_next size old list) (shown old) x y }
    ensures answers { (size : Size) (list : List Command) (restore : Bool) (old new : Context) → HasRun size list restore old new
        → (q : ℕ) → q < QUERY_LIMIT → answered size new q ≡ result_after size (performed_next size old list) (shown old) q (answered size old q) }
{}

/// A context stands for its session: a new one behind no steps, and behind each further step once it has taken it. A call
/// that runs the pending commands finds no query open, and an executed list has accepted commands and leaves none open.
pub fn a_context_stands_for_its_session()
    ensures new { (size : Size) (c : Context) → IsNew size c → Stands size [] c }
    ensures recorded { (size : Size) (steps : List Step) (c : Context) (command : Command) → Stands size steps c
        → IsAccepted c.pending command → Stands size (steps ++ Records command ∷ []) (record c { pending = c.pending ++ command ∷ [] }) }
    ensures flushed { (size : Size) (steps : List Step) (c d : Context) → Stands size steps c → queries_open c.pending ≡ []
        → HasRun size [] true c d → Stands size (steps ++ Flushes ∷ []) d }
    ensures executed { (size : Size) (steps : List Step) (c d : Context) (list : List Command) (restore : Bool) → Stands size steps c
        → queries_open c.pending ≡ [] → queries_open list ≡ [] → AreAccepted list → HasRun size list restore c d → Stands size (steps ++ Executes list restore ∷ []) d }
{}

/// A context that stands for a session shows its pixels and answers its queries, with its settings and open queries.
pub fn a_context_shows_its_session()
    ensures { (size : Size) (steps : List Step) (c : Context) → Stands size steps c → Shows size steps c }
{}
