//! Laws of schedules and of the printed text, as the contracts of calls that do nothing.

ghost use Rattle.std.specs.Prelude.{◌≡◌, ◌≤◌, ◌++◌, List, ℕ, Option, Ok};
ghost use Rattle.i9_text.specs.Text as texts;
ghost use Rattle.i9_model.specs.declared.event.Event as events;
ghost use Rattle.i9_model.specs.declared.event.Timed as timed;
ghost use Rattle.i9_model.specs.declared.event.Said.TheVariants as said;
ghost use Rattle.i9_model.specs.Events.{Words, IsInRange, journal_text};
ghost use Rattle.i9_model.specs.ScheduleText.{Contents, IsVersion, IsOfVersion, AreOfVersion, IsTimed, IsPlan};
ghost use Rattle.i9_model.specs.ScheduleText.{IsSchedule, version_in, timed_of, line_of, timed_at, last_count};
ghost use Rattle.i9_model.specs.PrintedText.{Shown, heading_text, text_of, events_of};

/// What the words of a line say, by cases, is what the function on words gives.
pub fn words_say_events()
    ensures read { (version : ℕ) (ws : Words) (t : timed.Timed) → timed_of version ws ≡ Ok t → IsTimed version ws t }
    ensures only { (version : ℕ) (ws : Words) (t : timed.Timed) → IsTimed version ws t → timed_of version ws ≡ Ok t }
{}

/// The line that a journal prints for an event is read back as the same event at the same count, in a text of a
/// version that has the event.
pub fn journal_is_read_back()
    ensures words { (version k : ℕ) (e : events.Event) → IsOfVersion version e → k ≤ last_count → IsInRange e
        → IsTimed version (texts.words_of (journal_text k e)) (timed_at k e) }
    ensures line { (told : Option ℕ) (k : ℕ) (e : events.Event) → IsOfVersion (version_in told) e → k ≤ last_count
        → IsInRange e
        → line_of told (journal_text k e) ≡ Ok (said.Event (timed_at k e)) }
{}

/// Printed lines, behind the line of a version, are the text of a schedule of this version, and its events are
/// those that were printed, where these may stand in such a schedule at all. The events of a schedule may, and so
/// may the first ones of them.
pub fn printed_text_is_a_schedule()
    ensures replay { (version : ℕ) (ls : List Shown) → IsVersion version → IsPlan (events_of ls)
        → AreOfVersion version (events_of ls) → IsSchedule (texts.lines_of (heading_text version ++ text_of ls))
        (record { version = version; events = events_of ls }) }
    ensures plan { (lines : List (List ℕ)) (c : Contents) → IsSchedule lines c → IsPlan c.events }
    ensures version { (lines : List (List ℕ)) (c : Contents) → IsSchedule lines c
        → IsVersion c.version × AreOfVersion c.version c.events }
    ensures front { (ts us : List timed.Timed) → IsPlan (ts ++ us) → IsPlan ts }
    ensures version_front { (version : ℕ) (ts us : List timed.Timed) → AreOfVersion version (ts ++ us)
        → AreOfVersion version ts }
{}
