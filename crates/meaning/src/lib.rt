// The yard's own numbers and answers. Their meaning, after docs/RULES.md, stands in specs/.
#![tactic(auto)]

ghost use Rattle.std.specs.Prelude.{◌≡◌};
ghost use Rattle.meaning.specs.Returned.{number_of};
ghost use Rattle.meaning.specs.Judge.{nobody};
ghost use Rattle.meaning.specs.Results.{outcome_of, plan_answer, judge_answer, told_answer, merged_told_answer};

// So many bytes of a sheet decide every answer.
pub const DECIDING_SHEET: usize = 4162;

// Room for any plan of ours.
pub const ANY_PLAN: usize = 60482;

// So many bytes of a plan, from anybody, decide its verdict and whom it names.
pub const DECIDING_PLAN: usize = 96032;

// Room for any merged plan of ours.
pub const ANY_MERGED: usize = 128;

// So many bytes of a merged plan, from anybody, decide its verdict and whom it names.
pub const DECIDING_MERGED: usize = 65855;

// Room for any wake book.
pub const ANY_BOOK: usize = 119322;

// Room for any listing.
pub const ANY_TEXT: usize = 302467;

// A node's number: the gateway's, 1, or a probe's.
#[derive(Clone, Copy)]
pub struct Node(pub u8);

// A probe's number, from 2.
#[derive(Clone, Copy)]
pub struct Probe(pub u8);

// A level, the number of hops to the gateway, 0 to 63.
#[derive(Clone, Copy)]
pub struct Level(pub u8);

// A colour, from 1; 0 where none is given yet.
#[derive(Clone, Copy)]
pub struct Colour(pub u8);

// A slot's number, from 1.
#[derive(Clone, Copy)]
pub struct Slot(pub u16);

// What is wrong where something is refused, by its number in the table of RULES, "Numbers returned".
#[derive(Clone, Copy, PartialEq, Eq)]
pub enum Fault {
    SheetShort = 1,
    CountTooLarge = 2,
    SheetLong = 3,
    ParentWrong = 4,
    TooManyPackets = 5,
    NeverArrives = 6,
    PairWrong = 7,
    PairNotAbove = 8,
    PlanRoom = 9,
    TooManySlots = 10,
    PlanShort = 11,
    NoProbe = 12,
    NotAbove = 13,
    NoPacket = 14,
    Conflict = 15,
    PlanLong = 16,
    PacketsLeft = 17,
    LineAstray = 18,
    VertexWrong = 19,
    EdgeCount = 20,
    TextRoom = 21,
    BookRoom = 22,
}

impl Fault {
    // Its number in the table.
    pub fn number(self) -> u8
        ensures { result ≡ number_of self }
    {
        self as u8
    }
}

// A refusal: what is wrong, and its place.
#[derive(Clone, Copy)]
pub struct Refusal {
    pub fault: Fault,
    pub place: u16,
}

// A number and its place, as they are said: those of a refusal, or any other; both are 0 where nothing is wrong. No Result: `wording::refused` and `lines::refusal_line` promise their line of any number.
#[derive(Clone, Copy)]
pub struct Outcome {
    pub number: u8,
    pub place: u16,
}

// The answer where nothing is wrong.
pub const ACCEPTED: Outcome = Outcome {
    number: 0,
    place: 0,
};

impl From<Refusal> for Outcome {
    ghost from_gives = { λ refusal outcome. outcome ≡ outcome_of refusal };

    fn from(refusal: Refusal) -> Outcome {
        Outcome {
            number: refusal.fault.number(),
            place: refusal.place,
        }
    }
}

// What a plan of ours has.
#[derive(Clone, Copy)]
pub struct Plan {
    pub colours: u8,
    pub slots: u16,
    pub bytes: usize,
}

// What a planner answers, as it is said; the last three are 0 on refusal. A record of any number, since `wording` and `plans` promise their words of any.
#[derive(Clone, Copy)]
pub struct Planned {
    pub outcome: Outcome,
    pub colours: u8,
    pub slots: u16,
    pub bytes: usize,
}

impl From<Result<Plan, Refusal>> for Planned {
    ghost from_gives = { λ made planned. planned ≡ plan_answer made };

    fn from(made: Result<Plan, Refusal>) -> Planned {
        match made {
            Ok(plan) => Planned {
                outcome: ACCEPTED,
                colours: plan.colours,
                slots: plan.slots,
                bytes: plan.bytes,
            },
            Err(refusal) => Planned {
                outcome: Outcome::from(refusal),
                colours: 0,
                slots: 0,
                bytes: 0,
            },
        }
    }
}

// The verdict on a plan; the slots are 0 unless it is passed.
#[derive(Clone, Copy)]
pub struct Verdict {
    pub outcome: Outcome,
    pub slots: u16,
}

// Whom a refusal names: senders of the slot, by their bytes; 0 where it names nobody. A sender may be 0 itself: the number tells.
#[derive(Clone, Copy)]
pub struct Names {
    pub first: u8,
    pub second: u8,
}

// The names where nobody is named.
pub const NOBODY: Names = Names {
    first: 0,
    second: 0,
};

// A refusal of a plan, and whom it names.
#[derive(Clone, Copy)]
pub struct Blame {
    pub refusal: Refusal,
    pub names: Names,
}

// A refusal that names nobody.
impl From<Refusal> for Blame {
    ghost from_gives = { λ refusal blame. blame ≡ record { refusal = refusal; names = nobody } };

    fn from(refusal: Refusal) -> Blame {
        Blame {
            refusal,
            names: NOBODY,
        }
    }
}

// What the judge answers, as it is said: the verdict, and whom it names. Of any number, as `Planned`.
#[derive(Clone, Copy)]
pub struct Judgement {
    pub verdict: Verdict,
    pub names: Names,
}

impl From<Result<u16, Blame>> for Judgement {
    ghost from_gives = { λ judged judgement. judgement ≡ judge_answer judged };

    fn from(judged: Result<u16, Blame>) -> Judgement {
        match judged {
            Ok(slots) => Judgement {
                verdict: Verdict {
                    outcome: ACCEPTED,
                    slots,
                },
                names: NOBODY,
            },
            Err(blame) => Judgement {
                verdict: Verdict {
                    outcome: Outcome::from(blame.refusal),
                    slots: 0,
                },
                names: blame.names,
            },
        }
    }
}

// The slots of a reading at least, in our plan and at most, and how many times anybody's ours is.
#[derive(Clone, Copy)]
pub struct Limits {
    pub least: u16,
    pub ours: u16,
    pub most: u16,
    pub times: u8,
}

// What the telephone answers, as it is said; the last four are 0 on refusal. Of any number, as `Planned`.
#[derive(Clone, Copy)]
pub struct Told {
    pub outcome: Outcome,
    pub least: u16,
    pub ours: u16,
    pub most: u16,
    pub times: u8,
}

impl From<Result<Limits, Refusal>> for Told {
    ghost from_gives = { λ asked told. told ≡ told_answer asked };

    fn from(asked: Result<Limits, Refusal>) -> Told {
        match asked {
            Ok(limits) => Told {
                outcome: ACCEPTED,
                least: limits.least,
                ours: limits.ours,
                most: limits.most,
                times: limits.times,
            },
            Err(refusal) => Told {
                outcome: Outcome::from(refusal),
                least: 0,
                ours: 0,
                most: 0,
                times: 0,
            },
        }
    }
}

// What a reading brings in: every packet of every probe, or one reading of each probe, merged on its way.
#[derive(Clone, Copy)]
pub enum Mode {
    Packets,
    Merged,
}

// The slots of a merged reading at least, in our plan and at most.
#[derive(Clone, Copy)]
pub struct MergedLimits {
    pub least: u16,
    pub ours: u16,
    pub most: u16,
}

// What the telephone answers of merged readings, as it is said; the last three are 0 on refusal. Of any number, as `Planned`.
#[derive(Clone, Copy)]
pub struct MergedTold {
    pub outcome: Outcome,
    pub least: u16,
    pub ours: u16,
    pub most: u16,
}

impl From<Result<MergedLimits, Refusal>> for MergedTold {
    ghost from_gives = { λ asked told. told ≡ merged_told_answer asked };

    fn from(asked: Result<MergedLimits, Refusal>) -> MergedTold {
        match asked {
            Ok(limits) => MergedTold {
                outcome: ACCEPTED,
                least: limits.least,
                ours: limits.ours,
                most: limits.most,
            },
            Err(refusal) => MergedTold {
                outcome: Outcome::from(refusal),
                least: 0,
                ours: 0,
                most: 0,
            },
        }
    }
}

// Which of two plans the chooser hands back.
#[derive(Clone, Copy)]
pub enum Choice {
    Neither,
    First,
    Second,
}
