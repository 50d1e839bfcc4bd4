// Saving and loading together (RULES 9.5), and what a load can be (RULES 9.4).
ghost use Rattle.restored.specs.Restored.{LoadOfSave, SaveOfLoad, SaveOfOldLoad, ToldOrRefused, LoadsExactly};
ghost use Rattle.restored.specs.Bookings.{BookingsOrderly, BookSurvives, StaysOrderly, StaysBytes};
ghost use Rattle.restored.specs.History.{Resumes, ResumesLoaded};

// A book that was saved and loaded uses the same entries as before.
#[tactic(auto, using(crate::proofs::Restored::load_of_save))]
pub fn load_of_save()
    ensures { LoadOfSave }
{}

// Save of what was loaded from a save of the new form gives its bytes.
#[tactic(auto, using(crate::proofs::Restored::save_of_load))]
pub fn save_of_load()
    ensures { SaveOfLoad }
{}

// Save of what was loaded from a save of the old form does what the move to the new form does.
#[tactic(auto, using(crate::proofs::Restored::save_of_old_load))]
pub fn save_of_old_load()
    ensures { SaveOfOldLoad }
{}

// A load gives the book that the save tells, or refuses and changes nothing.
#[tactic(auto, using(crate::proofs::Restored::told_or_refused))]
pub fn told_or_refused()
    ensures { ToldOrRefused }
{}

// A load is done exactly where the rooms are of right size, the bytes are a valid save, and it fits.
#[tactic(auto, using(crate::proofs::Restored::loads_exactly))]
pub fn loads_exactly()
    ensures { LoadsExactly }
{}

// A book made by bookings from empty comes back from its save.
pub fn bookings_orderly()
    ensures { BookingsOrderly }
{}

#[tactic(auto, using(crate::proofs::Bookings::book_survives))]
pub fn book_survives()
    ensures { BookSurvives }
{}

// Bookings keep a book so, also one that was loaded.
pub fn stays_orderly()
    ensures { StaysOrderly }
{}

#[tactic(auto, using(crate::proofs::BookedBytes::stays_bytes))]
pub fn stays_bytes()
    ensures { StaysBytes }
{}

// The agreement of booking goes on after a load, from the history that the loaded entries state.
#[tactic(auto, using(crate::proofs::History::resumes))]
pub fn resumes()
    ensures { Resumes }
{}

#[tactic(auto, using(crate::proofs::History::resumes_loaded))]
pub fn resumes_loaded()
    ensures { ResumesLoaded }
{}
