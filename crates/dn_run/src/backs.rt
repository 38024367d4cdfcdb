//! Sources that came back, with what is told of their feeds.

ghost use Rattle.std.specs.Prelude.{◌≡◌, ◌≤◌, ◌+◌, ◌++◌, [], length, map};
ghost use Rattle.std.specs.Prelude.{vec_capacity};
ghost use Rattle.std.specs.List.Sorted.{IsNonDecreasingBy, IsPermutation};
ghost use Rattle.dn_run.specs.Deal.{unread_back};

use dn_io::Source;
use feed_model::FeedTold;
use route_feed::FeedReader;

/// Sources behind others, for which there is room.
pub fn append<S: Source>(backs: Vec<(S, FeedTold)>, more: Vec<(S, FeedTold)>) -> Vec<(S, FeedTold)>
    requires { length backs.items + length more.items ≤ vec_capacity backs }
    ensures items { result.items ≡ backs.items ++ more.items }
    ensures room { vec_capacity result ≡ vec_capacity backs }
{
    let mut backs = backs;
    for back in more {
        backs.push_reserved(back);
    }
    backs
}

/// The sources of readers behind others, for which there is room.
pub fn append_readers<S: Source>(
    backs: Vec<(S, FeedTold)>,
    readers: Vec<FeedReader<S>>,
) -> Vec<(S, FeedTold)>
    requires { length backs.items + length readers.items ≤ vec_capacity backs }
    ensures items { result.items ≡ backs.items ++ map unread_back readers.items }
    ensures room { vec_capacity result ≡ vec_capacity backs }
{
    let mut backs = backs;
    for reader in readers {
        backs.push_reserved(reader.into_parts());
    }
    backs
}

/// Sources in the order of their feeds' numbers.
pub fn in_order<S: Source>(backs: Vec<(S, FeedTold)>) -> Vec<(S, FeedTold)>
    ensures same { IsPermutation backs.items result.items }
    ensures rises { IsNonDecreasingBy (λ b. b.1.feed_no) result.items }
{
    let mut backs = backs;
    backs.sort_unstable_by_key(
        |back| -> u32
            ensures { result ≡ back.now.1.feed_no }
        { back.1.feed_no },
    );
    backs
}

/// Sources, and what is told of their feeds, each in order, into their room.
pub fn part_backs<S: Source>(
    backs: Vec<(S, FeedTold)>,
    sources: Vec<S>,
    tolds: Vec<FeedTold>,
) -> (Vec<S>, Vec<FeedTold>)
    requires empty { (sources.items ≡ []) × (tolds.items ≡ []) }
    requires sources { length backs.items ≤ vec_capacity sources }
    requires tolds { length backs.items ≤ vec_capacity tolds }
    ensures sources { result.0.items ≡ map (λ b. b.0) backs.items }
    ensures tolds { result.1.items ≡ map (λ b. b.1) backs.items }
{
    let mut sources = sources;
    let mut tolds = tolds;
    for (source, told) in backs {
        sources.push_reserved(source);
        tolds.push_reserved(told);
    }
    (sources, tolds)
}
