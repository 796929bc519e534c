//! Laws of timetables: the contract of each function here is proved for every table, and there is nothing to compute.
ghost use Rattle.timetable.specs.Cases.{WorkedCases};
ghost use Rattle.timetable.specs.Laws.{CollideInWords, FreeInWords, FreeWithOneMore, FreeAmongFewer, FreeByItsOwn, EarliestByItsOwn, EarliestIsFirst, NoEarliest, EarliestIsAnEnd, SoundByTest, SoundWhenEmpty, SoundWithOneMore, SoundWhereFree, SoundInAnyOrder, SoundInPart, BookKeepsSound, TakeBackKeepsSound, TakeBackUndoes};

/// When a resource is free.
pub fn free_laws()
    ensures collide_in_words { CollideInWords }
    ensures in_words { FreeInWords }
    ensures with_one_more { FreeWithOneMore }
    ensures among_fewer { FreeAmongFewer }
    ensures by_its_own { FreeByItsOwn }
{}

/// Which start is the earliest.
pub fn earliest_laws()
    ensures is_first { EarliestIsFirst }
    ensures is_none { NoEarliest }
    ensures is_an_end { EarliestIsAnEnd }
    ensures by_its_own { EarliestByItsOwn }
{}

/// When no two bookings are in each other's way.
pub fn sound_laws()
    ensures by_test { SoundByTest }
    ensures when_empty { SoundWhenEmpty }
    ensures with_one_more { SoundWithOneMore }
    ensures where_free { SoundWhereFree }
    ensures in_any_order { SoundInAnyOrder }
    ensures in_part { SoundInPart }
{}

/// What booking and taking back do.
pub fn change_laws()
    ensures book_keeps_sound { BookKeepsSound }
    ensures take_back_keeps_sound { TakeBackKeepsSound }
    ensures take_back_undoes { TakeBackUndoes }
{}

/// Cases that were worked out by hand.
pub fn worked_cases()
    ensures { WorkedCases }
{}
