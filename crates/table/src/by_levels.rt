// What can be asked of a tree by its levels and distance alone: nothing is lent.
ghost use Rattle.std.specs.Prelude.{◌≡◌};
ghost use Rattle.cover.specs.rules.Answer.{answer};
ghost use Rattle.lock.specs.rules.StepCount.{step_count_answer};
ghost use Rattle.table.specs.rules.Wanted.{words_wanted};

// The pieces of [left, right) and their total over-cover. Tests 1 for the levels, then 7.
pub fn nolthewyr_cover(levels: u64, left: u64, right: u64) -> cover::Answer
    ensures { result ≡ answer levels left right }
{
    cover::cover(levels, left, right).into()
}

// How many steps [left, right) needs on an otherwise idle tree. Tests 1 for the levels and the distance, then 7.
pub fn nolthewyr_step_count(levels: u64, distance: u64, left: u64, right: u64) -> lock::StepCount
    ensures { result ≡ step_count_answer levels distance left right }
{
    lock::StepCount::from(lock::step_count(levels, distance, left, right))
}

// How many words are to be lent; 0 for a number of levels that no tree has, since the C interface has no Option. The range of the levels is stated where it is tested.
pub fn nolthewyr_word_count(levels: u64) -> u64
    ensures { result ≡ words_wanted levels }
{
    if (levels < 2) | (12 < levels) {
        return 0;
    }
    tree::last_node(levels)
}
