//! Whether two things that are shown are the same.

use crate::shown::{Arrived, Shown};
use mt_same::Same;

impl Same for Arrived {
    fn is_same(&self, other: &Arrived) -> bool {
        self.counter == other.counter
            && self.header == other.header
            && self.payload.equals(&other.payload)
    }
}

impl Same for Shown {
    fn is_same(&self, other: &Shown) -> bool {
        match (self, other) {
            (
                Shown::Heard { live, arrival },
                Shown::Heard {
                    live: other_live,
                    arrival: other_arrival,
                },
            ) => *live == *other_live && arrival.is_same(other_arrival),
            (
                Shown::Sent { outgoing, now },
                Shown::Sent {
                    outgoing: other_outgoing,
                    now: other_now,
                },
            ) => *now == *other_now && outgoing.is_same(other_outgoing),
            (
                Shown::Told {
                    subscription,
                    outgoing: report,
                    now,
                },
                Shown::Told {
                    subscription: other_subscription,
                    outgoing: other_report,
                    now: other_now,
                },
            ) => {
                *subscription == *other_subscription
                    && *now == *other_now
                    && report.is_same(other_report)
            },
            (Shown::Again { now }, Shown::Again { now: other_now }) => *now == *other_now,
            (Shown::Closed, Shown::Closed) => true,
            _ => false,
        }
    }
}
