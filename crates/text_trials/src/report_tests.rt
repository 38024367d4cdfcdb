//! The printed report, byte for byte.

ghost use Rattle.std.specs.Prelude.{IsTrue};
ghost use Rattle.base.specs.Name.{is_name_text};

use crate::triangle::{
    FIRST, SECOND, THIRD, clear_ten, compare_report, history, link_entry, update,
};
use dn_formats::{JobTold, Outcome, Told};
use dn_model::{
    Answer, Ask, Change, DropKind, Entry, LinkId, List, Name, Op, PathEnd, Posted, Prefix, Query,
    RouterId, Run, Target, Unknown,
};
use feed_model::frame_cause::{BAD_FRAME_LENGTH, BAD_VERSION};
use feed_model::{FeedEnd, FeedTold, RefusedFrame};
use std::alloc::Global;
use std::process::Abort;
use version_pages::Pages;

/// What is told of a feed of r1 that ended, with no frame refused.
fn ended_feed(alloc: Global) -> FeedTold {
    FeedTold {
        feed_no: 1,
        router: FIRST,
        updates: 1,
        skipped: 0,
        refused: List::new(alloc),
        end: Some(FeedEnd::End),
    }
}

/// The update that sets 10.0.0.0/8 with metric 20 to a target.
fn set_ten(target: Target) -> Entry {
    update(Op::Set {
        prefix: Prefix::new(0x0a00_0000, 8),
        metric: 20,
        target,
    })
}

/// The query for the walk of 10.1.2.3 from a router.
fn path_query(rt: &impl Abort, alloc: Global, router: &[u8]) -> Query
    requires { IsTrue (is_name_text router.now) }
{
    let router = Name::from_text(alloc, router).expect(rt, "memory");
    Query::of(alloc, Ask::Path(router, 0x0a01_0203))
}

/// What is told of that query for r1, answered from one entry by these hops and this end.
fn told_path(rt: &impl Abort, alloc: Global, line: u32, hops: &[RouterId], end: PathEnd) -> Told {
    let hops = List::from_vec(Vec::from_slice(alloc, hops).expect(rt, "memory"));
    Told::Asked {
        line,
        query: path_query(rt, alloc, b"r1"),
        outcome: Outcome::Answered {
            number: 1,
            answer: Answer::Path { hops, end },
        },
    }
}

/// What is told of one query, which ends where no route is.
fn one_told(rt: &impl Abort, alloc: Global) -> List<Told> {
    let mut all = List::new(alloc);
    let end = PathEnd::At(Target::NoRoute);
    all.push(told_path(rt, alloc, 2, &[FIRST, SECOND], end))
        .expect(rt, "memory");
    all
}

const ONE_PATH: &str = "feed 1 r1 updates 1 skipped 0 refused 0 end
history 1
1 feed 1 r1 set 10.0.0.0/8 metric 20 to r2 by a
job 1
line 2 at 1 path r1 10.1.2.3
hops r1 r2
end noroute
done
";

#[test]
fn prints_one_path(rt: HostRuntime) {
    let alloc = rt.alloc();
    let feeds = [ended_feed(alloc)];
    let history = history(&rt, alloc, &[set_ten(Target::To(SECOND, LinkId(0)))]);
    let jobs = [JobTold {
        number: 1,
        told: one_told(&rt, alloc),
    }];
    compare_report(&rt, alloc, &feeds, &history, &jobs, ONE_PATH);
}

/// What is told of a feed of r2 with no update and two skipped messages.
fn feed(feed_no: u32, refused: List<RefusedFrame>, end: Option<FeedEnd>) -> FeedTold {
    FeedTold {
        feed_no,
        router: SECOND,
        updates: 0,
        skipped: 2,
        refused,
        end,
    }
}

/// The report of a run whose only feed, the third, ended so.
fn compare_end(rt: &impl Abort, alloc: Global, end: FeedEnd, want: &str) {
    let feeds = [feed(3, List::new(alloc), Some(end))];
    compare_report(rt, alloc, &feeds, &Pages::new(), &[], want);
}

#[test]
fn prints_each_end_of_a_feed(rt: HostRuntime) {
    let alloc = rt.alloc();
    let want = "feed 3 r2 updates 0 skipped 2 refused 0 end\nhistory 0\ndone\n";
    compare_end(&rt, alloc, FeedEnd::End, want);
    let want = "feed 3 r2 updates 0 skipped 2 refused 0 cutshort 64\nhistory 0\ndone\n";
    compare_end(&rt, alloc, FeedEnd::CutShort { offset: 64 }, want);
    let end = FeedEnd::Lost {
        offset: 0,
        cause: BAD_VERSION,
    };
    let want = "feed 3 r2 updates 0 skipped 2 refused 0 lost 0 BadVersion\nhistory 0\ndone\n";
    compare_end(&rt, alloc, end, want);
    let end = FeedEnd::Lost {
        offset: 52,
        cause: BAD_FRAME_LENGTH,
    };
    let want = "feed 3 r2 updates 0 skipped 2 refused 0 lost 52 BadFrameLength\nhistory 0\ndone\n";
    compare_end(&rt, alloc, end, want);
    let want = "feed 3 r2 updates 0 skipped 2 refused 0 toolong\nhistory 0\ndone\n";
    compare_end(&rt, alloc, FeedEnd::TooLong, want);
    let want = "feed 3 r2 updates 0 skipped 2 refused 0 full\nhistory 0\ndone\n";
    compare_end(&rt, alloc, FeedEnd::Full, want);
    let want = "feed 3 r2 updates 0 skipped 2 refused 0 readfault\nhistory 0\ndone\n";
    compare_end(&rt, alloc, FeedEnd::Faulted, want);
}

/// A feed with a frame refused for each cause, 1 to 14.
fn feed_with_each_cause(rt: &impl Abort, alloc: Global) -> FeedTold {
    let mut refused = List::new(alloc);
    for cause in 1..15 {
        refused
            .push(RefusedFrame {
                offset: 1_073_741_823,
                at: 60,
                cause,
            })
            .expect(rt, "memory");
    }
    feed(1, refused, Some(FeedEnd::End))
}

const REFUSED: &str = "feed 1 r2 updates 0 skipped 2 refused 14 end
refused offset 1073741823 message 60 cause 1 BadLength
refused offset 1073741823 message 60 cause 2 Short
refused offset 1073741823 message 60 cause 3 BadAttr
refused offset 1073741823 message 60 cause 4 BadPrefixLength
refused offset 1073741823 message 60 cause 5 SourceOrTos
refused offset 1073741823 message 60 cause 6 NoDestination
refused offset 1073741823 message 60 cause 7 HostBits
refused offset 1073741823 message 60 cause 8 RouteType
refused offset 1073741823 message 60 cause 9 Multipath
refused offset 1073741823 message 60 cause 10 Encap
refused offset 1073741823 message 60 cause 11 NextHopId
refused offset 1073741823 message 60 cause 12 NoInterface
refused offset 1073741823 message 60 cause 13 UnknownInterface
refused offset 1073741823 message 60 cause 14 FrameType
feed 2 r2 updates 0 skipped 2 refused 0 end
history 0
done
";

#[test]
fn prints_feeds_in_order(rt: HostRuntime) {
    let alloc = rt.alloc();
    let first = feed_with_each_cause(&rt, alloc);
    let second = feed(2, List::new(alloc), Some(FeedEnd::End));
    let feeds = [first, second];
    compare_report(&rt, alloc, &feeds, &Pages::new(), &[], REFUSED);
}

/// A history with each target and both kinds of Clear.
fn all_ops(rt: &impl Abort, alloc: Global) -> Pages<Posted> {
    history(
        rt,
        alloc,
        &[
            set_ten(Target::NoRoute),
            set_ten(Target::Dropped(DropKind::Blackhole)),
            set_ten(Target::Dropped(DropKind::Unreachable)),
            set_ten(Target::Dropped(DropKind::Prohibit)),
            set_ten(Target::Local),
            set_ten(Target::Exit(1)),
            set_ten(Target::OnLink(u32::MAX)),
            set_ten(Target::To(THIRD, LinkId(1))),
            set_ten(Target::LinkDown(LinkId(2))),
            clear_ten(None),
            clear_ten(Some(20)),
        ],
    )
}

/// What is told of a query with an unknown link: `without a,x9 path r1 255.255.255.255`.
fn unknown_link(rt: &impl Abort, alloc: Global) -> Told {
    let known = Name::from_text(alloc, b"a").expect(rt, "memory");
    let unknown = Name::from_text(alloc, b"x9").expect(rt, "memory");
    let router = Name::from_text(alloc, b"r1").expect(rt, "memory");
    let mut without = List::new(alloc);
    without.push(known).expect(rt, "memory");
    without.push(unknown).expect(rt, "memory");
    let ask = Ask::Path(router, 0xffff_ffff);
    Told::Asked {
        line: 2,
        query: Query::new(without, ask),
        outcome: Outcome::Unknown(Unknown::Link(2)),
    }
}

/// What is told of `delta` in line 5: one change.
fn delta_told(rt: &impl Abort, alloc: Global) -> Told {
    let changes = [Change {
        router: SECOND,
        run: Run {
            lo: 0x0a01_0203,
            hi: 0x0a01_0203,
        },
        before: Target::To(THIRD, LinkId(1)),
        after: Target::NoRoute,
    }];
    let changes = Vec::from_slice(alloc, &changes).expect(rt, "memory");
    Told::Asked {
        line: 5,
        query: Query::of(alloc, Ask::Delta),
        outcome: Outcome::Answered {
            number: 11,
            answer: Answer::Delta(List::from_vec(changes)),
        },
    }
}

/// What is told of a query whose router, r9, is unknown.
fn unknown_router(rt: &impl Abort, alloc: Global) -> Told {
    Told::Asked {
        line: 1,
        query: path_query(rt, alloc, b"r9"),
        outcome: Outcome::Unknown(Unknown::Router(1)),
    }
}

/// What is told of five queries: two with an unknown name, one that ends in a loop, one that leaves the network, and
/// one after what changed.
fn five_told(rt: &impl Abort, alloc: Global) -> List<Told> {
    let mut all = List::new(alloc);
    all.push(unknown_router(rt, alloc)).expect(rt, "memory");
    all.push(unknown_link(rt, alloc)).expect(rt, "memory");
    let hops = [FIRST, SECOND, THIRD, FIRST];
    all.push(told_path(rt, alloc, 3, &hops, PathEnd::Loop))
        .expect(rt, "memory");
    let end = PathEnd::At(Target::Exit(1));
    all.push(told_path(rt, alloc, 4, &[FIRST], end))
        .expect(rt, "memory");
    all.push(delta_told(rt, alloc)).expect(rt, "memory");
    all
}

const ALL_LINES: &str = "history 11
1 feed 1 r1 set 10.0.0.0/8 metric 20 noroute
2 feed 1 r1 set 10.0.0.0/8 metric 20 dropped blackhole
3 feed 1 r1 set 10.0.0.0/8 metric 20 dropped unreachable
4 feed 1 r1 set 10.0.0.0/8 metric 20 dropped prohibit
5 feed 1 r1 set 10.0.0.0/8 metric 20 local
6 feed 1 r1 set 10.0.0.0/8 metric 20 exit 1
7 feed 1 r1 set 10.0.0.0/8 metric 20 onlink 4294967295
8 feed 1 r1 set 10.0.0.0/8 metric 20 to r3 by b
9 feed 1 r1 set 10.0.0.0/8 metric 20 linkdown c
10 feed 1 r1 clear 10.0.0.0/8
11 feed 1 r1 clear 10.0.0.0/8 metric 20
job 1
line 1 path r9 10.1.2.3
unknown router r9
line 2 without a,x9 path r1 255.255.255.255
unknown link x9
line 3 at 1 path r1 10.1.2.3
hops r1 r2 r3 r1
end loop
line 4 at 1 path r1 10.1.2.3
hops r1
end exit 1
line 5 at 11 delta
r2 10.1.2.3-10.1.2.3 to r3 by b -> noroute
job 2
done
";

#[test]
fn prints_all_lines(rt: HostRuntime) {
    let alloc = rt.alloc();
    let history = all_ops(&rt, alloc);
    let jobs = [
        JobTold {
            number: 1,
            told: five_told(&rt, alloc),
        },
        JobTold {
            number: 2,
            told: List::new(alloc),
        },
    ];
    compare_report(&rt, alloc, &[], &history, &jobs, ALL_LINES);
}

/// A route by a next-hop object, and the object set before and gone after it.
fn object_ops() -> [Entry; 3] {
    [
        update(Op::Object {
            id: 7,
            target: Target::To(SECOND, LinkId(0)),
        }),
        update(Op::SetBy {
            prefix: Prefix::new(0x0a00_0000, 8),
            metric: 20,
            id: 7,
        }),
        update(Op::NoObject { id: 7 }),
    ]
}

const OBJECTS_AND_LINKS: &str = "history 5
1 feed 1 r1 object 7 to r2 by a
2 feed 1 r1 set 10.0.0.0/8 metric 20 by object 7
3 feed 1 r1 noobject 7
4 job 2 down b
5 job 2 up b
done
";

#[test]
fn prints_objects_and_links(rt: HostRuntime) {
    let alloc = rt.alloc();
    let [set, by, gone] = object_ops();
    let entries = [set, by, gone, link_entry(true), link_entry(false)];
    let history = history(&rt, alloc, &entries);
    compare_report(&rt, alloc, &[], &history, &[], OBJECTS_AND_LINKS);
}
