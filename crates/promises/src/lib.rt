// What is promised to callers: for each entry its reply and what it leaves in the lent memory, for any input (specs/),
// and the theorems that were asked for (proofs/Demands.antt names their files: open it first). The structs are the
// replies, and each is made from the result of the code here.
#![tactic(auto)]

ghost use Rattle.std.specs.Prelude.{◌≡◌};
ghost use Rattle.promises.specs.Replies.{summary_reply, verdict_reply, plan_reply, bytes_reply};

use format::{Refusal, Summary};

// What `warm_steps` replies. Where refusal is not 0, it is a refusal with its place, and the other numbers are 0.
#[repr(C)]
#[derive(Drop)]
pub struct StepsReply {
    pub refusal: u32,
    pub place: u32,
    pub units: u32,
    pub steps: u32,
    pub bound: u32,
    pub reserved: u32,
    pub start: u64,
    pub chambers: [u32; 4],
}

// What `warm_plan`, `warm_chart` and `warm_verdict` reply. Where refusal is not 0, it is a refusal with its place, and
// the other numbers are 0.
#[repr(C)]
#[derive(Drop)]
pub struct Reply {
    pub refusal: u32,
    pub place: u32,
    pub total: u32,
    pub accepted: u32,
}

// What `warm_write`, `warm_to_edition_1` and `warm_to_edition_2` reply. Where refusal is not 0, it is a refusal with
// its place, and the other numbers are 0.
#[repr(C)]
#[derive(Drop)]
pub struct Written {
    pub refusal: u32,
    pub place: u32,
    pub length: u32,
    pub reserved: u32,
}

// What is said of a plan made elsewhere: its total, and whether it meets the sheet.
#[derive(Clone, Copy, Debug, PartialEq, Eq)]
pub struct Verdict {
    pub total: u32,
    pub accepted: bool,
}

// The reply with the numbers of a sheet, or with a refusal.
impl From<Result<Summary, Refusal>> for StepsReply {
    ghost from_gives = { λ answer reply. reply ≡ summary_reply answer };

    fn from(answer: Result<Summary, Refusal>) -> StepsReply {
        match answer {
            Ok(Summary { header, steps }) => StepsReply {
                refusal: 0,
                place: 0,
                units: header.units,
                steps,
                bound: header.bound,
                reserved: 0,
                start: header.start,
                chambers: [
                    u32::from(header.sizes.first),
                    u32::from(header.sizes.second),
                    u32::from(header.sizes.third),
                    u32::from(header.sizes.fourth),
                ],
            },
            Err(refusal) => StepsReply {
                refusal: refusal.cause.number(),
                place: refusal.place,
                units: 0,
                steps: 0,
                bound: 0,
                reserved: 0,
                start: 0,
                chambers: [0; 4],
            },
        }
    }
}

// The reply with a verdict, or with a refusal.
impl From<Result<Verdict, Refusal>> for Reply {
    ghost from_gives = { λ answer reply. reply ≡ verdict_reply answer };

    fn from(answer: Result<Verdict, Refusal>) -> Reply {
        match answer {
            Ok(verdict) => Reply {
                refusal: 0,
                place: 0,
                total: verdict.total,
                accepted: u32::from(verdict.accepted),
            },
            Err(refusal) => Reply {
                refusal: refusal.cause.number(),
                place: refusal.place,
                total: 0,
                accepted: 0,
            },
        }
    }
}

// The reply with the total of a plan that was made, or with a refusal.
impl From<Result<u32, Refusal>> for Reply {
    ghost from_gives = { λ answer reply. reply ≡ plan_reply answer };

    fn from(answer: Result<u32, Refusal>) -> Reply {
        Reply::from(answer.map(|total| Verdict {
            total,
            accepted: false,
        }))
    }
}

// The reply with how many bytes were written, or with a refusal.
impl From<Result<u32, Refusal>> for Written {
    ghost from_gives = { λ answer reply. reply ≡ bytes_reply answer };

    fn from(answer: Result<u32, Refusal>) -> Written {
        match answer {
            Ok(length) => Written {
                refusal: 0,
                place: 0,
                length,
                reserved: 0,
            },
            Err(refusal) => Written {
                refusal: refusal.cause.number(),
                place: refusal.place,
                length: 0,
                reserved: 0,
            },
        }
    }
}
