//! The limits of the queue, each in one place.
//!
//! A definition of the same name in `specs/Limits.antt` has the number that the contracts speak of, so a
//! constant that is changed here alone is refused by the proofs of the crates that use it.

/// The greatest number of a job. It is this project's own: sendq(5) has no limit. `MaxJobs` of the setup
/// may lower it.
pub const LAST_JOB: u32 = 999_999;

/// The greatest number of a grant. It is this project's own. `MaxGrants` of the setup may lower it.
pub const LAST_GRANT: u32 = 999_999_999;

/// The most pages of a job, by this project. `MaxSendPages` of the destination controls may lower it.
pub const MOST_PAGES: u16 = 9_999;

/// The most tries of a job, the most dials of a job, and the most calls at a time to one number, by this
/// project.
pub const MOST_ATTEMPTS: u16 = 1_000;

/// How many tries in a row of one page a job has: behind the last it fails, as with HylaFAX's faxq(8).
pub const TRIES_OF_PAGE: u16 = 3;

/// The longest delay before a job may be tried again, in seconds: a day.
pub const LONGEST_DELAY: u32 = 86_400;

/// The last moment, in seconds since 1970-01-01T00:00:00Z: 2100-01-01T00:00:00Z. A later one counts as
/// this.
pub const LAST_MOMENT: u32 = 4_102_444_800;

/// The latest moment from which a job may be tried again, in seconds since 1970-01-01T00:00:00Z: the
/// longest delay after the last moment.
pub const LAST_NEXT: u32 = 4_102_531_200;
