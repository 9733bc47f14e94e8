//! Where the words lie, and the numbers that the steps write into them.
ghost use Rattle.std.specs.Prelude.{◌≡◌, ◌==◌, ◌+◌, ◌<◌, ◌≤◌, ◌^◌};
ghost use Rattle.tko_word.specs.Words.{IsMark, IsWord, health_word, one_slot, server_in, slot_over_mark, stamp_end};
ghost use Rattle.tko_model.specs.Groups.{group_of, groups};
ghost use Rattle.tko_model.specs.Limits.{max_groups};
ghost use Rattle.tko_table.specs.Rule.{health_place, soft_place};
ghost use Rattle.tko_table.specs.Steps.{IsWritable};

use tko_model::{Mark, ServerState, Settings};
use tko_word::{ONE_SLOT, SLOT_OVER_MARK, pack};

/// The enrolment word's place.
pub(crate) const ENROLMENT: usize = 0;

/// The place of the first server's health word.
const HEALTH: usize = 1;

/// The place of a server's health word.
pub(crate) fn place_of(server: usize) -> usize
    requires { server < 2 ^ 32 }
    ensures { result ≡ health_place server }
{
    server + HEALTH
}

/// The place of a group's soft word, which is behind the health words.
pub(crate) fn soft_place_in(settings: &Settings, group: usize) -> usize
    requires { group < 2 ^ 32 }
    ensures { result ≡ soft_place settings.now group }
{
    settings.servers as usize + HEALTH + group
}

/// How many words there are.
pub(crate) fn count_words(settings: &Settings) -> usize
    requires { groups settings.now ≤ max_groups }
    ensures { result ≡ settings.now.servers + 1 + groups settings.now }
{
    soft_place_in(settings, settings.groups())
}

/// The place of the soft word of a server's group.
pub(crate) fn soft_place_of(settings: &Settings, server: usize) -> usize
    requires { groups settings.now ≤ max_groups }
    ensures { result ≡ soft_place settings.now (group_of settings.now server) }
{
    soft_place_in(settings, settings.group_of(server))
}

/// The health word of a server as it was found.
pub(crate) fn word_of(found: ServerState) -> u64
    requires mark { IsMark found.mark }
    requires stamp { found.stamp < stamp_end }
    ensures word { result ≡ health_word found.mark found.stamp }
    ensures valid { IsWord result }
    ensures back { server_in result ≡ found }
{
    pack(found.mark, found.stamp)
}

/// The health word that an exchange leaves: this mark, and a stamp that is one more.
pub(crate) fn word_after(found: ServerState, mark: Mark) -> u64
    requires { IsWritable found mark }
    ensures word { result ≡ health_word mark (found.stamp + 1) }
    ensures valid { IsWord result }
    ensures back { server_in result ≡ record { mark = mark; stamp = found.stamp + 1 } }
{
    pack(mark, found.stamp + 1)
}

/// Whether an exchange that found this word and expected that one took place.
pub(crate) fn is_won(found: u64, expected: u64) -> bool
    ensures { result ≡ (found == expected) }
{
    found == expected
}

/// What a call adds to the soft word to take a slot, and takes from it to give one back.
pub(crate) fn one_slot() -> u64
    ensures { result ≡ one_slot }
{
    ONE_SLOT
}

/// What a call takes from the soft word to settle a mark, and adds to it to loosen one.
pub(crate) fn slot_over_mark() -> u64
    ensures { result ≡ slot_over_mark }
{
    SLOT_OVER_MARK
}

/// What an enrolment adds to the enrolment word.
pub(crate) fn one_thread() -> u64
    ensures { result ≡ 1 }
{
    1
}
