//! The statements of the queue, as texts in SQL.

// ---- how the tables and their indexes are made, and taken away

pub const CREATE_JOBS: &str = "CREATE TABLE jobs (job INTEGER PRIMARY KEY NOT NULL, \
    dial TEXT NOT NULL, modem TEXT NOT NULL, jobtag TEXT NOT NULL, \
    status TEXT NOT NULL, extra TEXT NOT NULL, tts INTEGER NOT NULL, killtime INTEGER NOT NULL, \
    priority INTEGER NOT NULL, npages INTEGER NOT NULL, totpages INTEGER NOT NULL, \
    ntries INTEGER NOT NULL, tottries INTEGER NOT NULL, maxtries INTEGER NOT NULL, \
    ndials INTEGER NOT NULL, totdials INTEGER NOT NULL, maxdials INTEGER NOT NULL, \
    phase INTEGER NOT NULL, wish INTEGER NOT NULL, next INTEGER NOT NULL) STRICT";

pub const CREATE_GRANTS: &str = "CREATE TABLE grants (id INTEGER PRIMARY KEY NOT NULL, \
    job INTEGER NOT NULL, modem TEXT NOT NULL, first_page INTEGER NOT NULL, \
    last_page INTEGER NOT NULL, call INTEGER NOT NULL, pages INTEGER NOT NULL, \
    shut INTEGER NOT NULL) STRICT";

pub const CREATE_HOLDS: &str = "CREATE TABLE holds (modem TEXT PRIMARY KEY NOT NULL, \
    job INTEGER NOT NULL UNIQUE, id INTEGER NOT NULL UNIQUE) STRICT";

pub const CREATE_DOWN: &str = "CREATE TABLE down (modem TEXT PRIMARY KEY NOT NULL) STRICT";

pub const CREATE_REPLIES: &str = "CREATE TABLE replies (client TEXT NOT NULL, \
    number INTEGER NOT NULL, said BLOB NOT NULL, status INTEGER NOT NULL, \
    body BLOB NOT NULL, PRIMARY KEY (client, number)) STRICT";

pub const CREATE_META: &str = "CREATE TABLE meta (one INTEGER PRIMARY KEY NOT NULL, \
    clock INTEGER NOT NULL, next_job INTEGER NOT NULL, next_grant INTEGER NOT NULL, \
    version INTEGER NOT NULL, CHECK (one = 1)) STRICT";

pub const CREATE_KILLTIME_INDEX: &str = "CREATE INDEX jobs_by_killtime ON jobs (phase, killtime)";

// It has all that the choice asks of a job, so the choice reads no row of the table.
pub const CREATE_CHOICE_INDEX: &str =
    "CREATE INDEX jobs_by_choice ON jobs (phase, priority, tts, job, next, killtime, dial, modem)";

pub const CREATE_CALLS: &str =
    "CREATE TABLE calls (dial TEXT PRIMARY KEY NOT NULL, open INTEGER NOT NULL) STRICT";

pub const CREATE_FLOORS: &str =
    "CREATE TABLE floors (client TEXT PRIMARY KEY NOT NULL, upto INTEGER NOT NULL) STRICT";

pub const CREATE_TIMES: &str = "CREATE TABLE times (job INTEGER PRIMARY KEY NOT NULL, \
    submitted INTEGER NOT NULL, ended INTEGER NOT NULL) STRICT";

pub const CREATE_GRANTS_INDEX: &str = "CREATE INDEX grants_by_job ON grants (job)";

pub const DROP_CALLS: &str = "DROP TABLE calls";

pub const DROP_CHOICE_INDEX: &str = "DROP INDEX jobs_by_choice";

pub const DROP_KILLTIME_INDEX: &str = "DROP INDEX jobs_by_killtime";

pub const DROP_GRANTS_INDEX: &str = "DROP INDEX grants_by_job";

pub const INSERT_META: &str =
    "INSERT INTO meta (one, clock, next_job, next_grant, version) VALUES (1, 0, 1, 1, 3)";

// ---- jobs

pub const SELECT_JOB: &str = "SELECT job, dial, modem, jobtag, status, tts, killtime, priority, \
    npages, totpages, ntries, tottries, maxtries, ndials, totdials, maxdials, phase, wish, next, extra \
    FROM jobs WHERE job = ?1";

pub const SELECT_BRIEF: &str = "SELECT job, dial, modem, jobtag, status, tts, killtime, priority, \
    npages, totpages, ntries, tottries, maxtries, ndials, totdials, maxdials, phase, wish, next \
    FROM jobs WHERE job = ?1";

pub const SELECT_BRIEFS: &str = "SELECT job, dial, modem, jobtag, status, tts, killtime, priority, \
    npages, totpages, ntries, tottries, maxtries, ndials, totdials, maxdials, phase, wish, next \
    FROM jobs ORDER BY job";

pub const SELECT_BRIEFS_FROM: &str =
    "SELECT job, dial, modem, jobtag, status, tts, killtime, priority, \
    npages, totpages, ntries, tottries, maxtries, ndials, totdials, maxdials, phase, wish, next \
    FROM jobs WHERE job >= ?1 ORDER BY job";

pub const UPDATE_JOB: &str = "UPDATE jobs SET modem = ?2, jobtag = ?3, status = ?4, tts = ?5, \
    killtime = ?6, priority = ?7, npages = ?8, ntries = ?9, tottries = ?10, maxtries = ?11, \
    ndials = ?12, totdials = ?13, maxdials = ?14, phase = ?15, wish = ?16, next = ?17 \
    WHERE job = ?1";

pub const SELECT_EXPIRED: &str =
    "SELECT job FROM jobs WHERE phase = ?2 AND killtime BETWEEN 1 AND ?1";

pub const EXPIRE_JOBS: &str = "UPDATE jobs SET phase = 4, status = 'Kill time expired' \
    WHERE phase = ?2 AND killtime BETWEEN 1 AND ?1";

pub const INSERT_JOB: &str = "INSERT INTO jobs (job, dial, modem, jobtag, status, tts, killtime, \
    priority, npages, totpages, ntries, tottries, maxtries, ndials, totdials, maxdials, phase, \
    wish, next, extra) VALUES (?1, ?2, ?3, ?4, ?5, ?6, ?7, ?8, ?9, ?10, ?11, ?12, ?13, ?14, ?15, ?16, \
    ?17, ?18, ?19, ?20)";

// ---- the times of jobs

pub const SELECT_TIMES: &str = "SELECT job, submitted, ended FROM times WHERE job = ?1";

pub const INSERT_TIMES: &str = "INSERT INTO times (job, submitted, ended) VALUES (?1, ?2, ?3)";

pub const END_TIMES: &str = "UPDATE times SET ended = ?2 WHERE job = ?1";

// ---- purging

// It reads `times` in the order of the jobs, and looks up each job whose end is right.
pub const SELECT_LEAVING: &str = "SELECT times.job FROM times JOIN jobs ON jobs.job = times.job \
    WHERE times.ended >= ?2 AND times.ended < ?1 AND jobs.phase > 2 AND jobs.phase < 5 ORDER BY times.job LIMIT 1000";

// The index by kill time has all that it asks. By `< 3` it would be read to the end of phase 3.
pub const SELECT_MANY_NOT_OVER: &str = "SELECT job FROM jobs WHERE phase <= 2 LIMIT 1 OFFSET 24999";

pub const SELECT_MANY_OVER: &str = "SELECT job FROM jobs WHERE phase >= 3 LIMIT 1 OFFSET 9999";

// It reads the jobs that are over in the index by kill time, and looks up the times of each.
pub const SELECT_LEAVING_OVER: &str =
    "SELECT times.job FROM jobs JOIN times ON times.job = jobs.job \
    WHERE jobs.phase > 2 AND jobs.phase < 5 AND times.ended < ?1 ORDER BY times.job LIMIT 1000";

// It reads them too, and looks up the times of each up to that number.
pub const SELECT_ENDED_AT_0: &str = "SELECT jobs.job FROM jobs JOIN times ON times.job = jobs.job \
    WHERE jobs.phase > 2 AND jobs.phase < 5 AND jobs.job <= ?1 AND times.ended < 1 LIMIT 1";

pub const DELETE_JOB: &str = "DELETE FROM jobs WHERE job = ?1";

pub const DELETE_TIMES: &str = "DELETE FROM times WHERE job = ?1";

pub const DELETE_GRANTS: &str = "DELETE FROM grants WHERE job = ?1";

// ---- the jobs that wait, a page at a time

// An index is read from the first entry that has the bounds' values, so `tts > ?5` would pass over all entries of that time.

pub const SELECT_FIRST: &str = "SELECT job, dial, modem, priority, tts FROM jobs \
    WHERE phase = 1 AND tts <= ?1 AND next <= ?1 AND (killtime = 0 OR killtime > ?1) \
    AND dial IS NOT ?3 ORDER BY priority, tts, job LIMIT ?2";

pub const SELECT_BEHIND_NUMBER: &str = "SELECT job, dial, modem, priority, tts FROM jobs \
    WHERE phase = 1 AND tts <= ?1 AND next <= ?1 AND (killtime = 0 OR killtime > ?1) \
    AND dial IS NOT ?3 AND priority = ?4 AND tts = ?5 AND job > ?6 ORDER BY priority, tts, job LIMIT ?2";

pub const SELECT_BEHIND_TIME: &str = "SELECT job, dial, modem, priority, tts FROM jobs \
    WHERE phase = 1 AND tts <= ?1 AND next <= ?1 AND (killtime = 0 OR killtime > ?1) \
    AND dial IS NOT ?3 AND priority = ?4 AND tts >= ?5 ORDER BY priority, tts, job LIMIT ?2";

pub const SELECT_BEHIND_PRIORITY: &str = "SELECT job, dial, modem, priority, tts FROM jobs \
    WHERE phase = 1 AND tts <= ?1 AND next <= ?1 AND (killtime = 0 OR killtime > ?1) \
    AND dial IS NOT ?3 AND priority >= ?4 ORDER BY priority, tts, job LIMIT ?2";

// ---- grants, holds and calls

pub const SELECT_GRANT: &str = "SELECT id, job, modem, first_page, last_page, call, pages, shut \
    FROM grants WHERE id = ?1";

pub const INSERT_GRANT: &str =
    "INSERT INTO grants (id, job, modem, first_page, last_page, call, pages, shut) \
    VALUES (?1, ?2, ?3, ?4, ?5, ?6, ?7, 0)";

pub const UPDATE_REPORT: &str = "UPDATE grants SET call = ?2, pages = ?3 WHERE id = ?1";

pub const SHUT_GRANT: &str = "UPDATE grants SET shut = 1 WHERE id = ?1";

pub const INSERT_HOLD: &str = "INSERT INTO holds (modem, job, id) VALUES (?1, ?2, ?3)";

pub const DELETE_HOLD: &str = "DELETE FROM holds WHERE id = ?1";

pub const SELECT_HOLD: &str = "SELECT id, job FROM holds WHERE modem = ?1";

pub const SELECT_OPEN: &str = "SELECT open FROM calls WHERE dial = ?1";

pub const DELETE_CALLS: &str = "DELETE FROM calls WHERE dial = ?1";

pub const INSERT_CALLS: &str = "INSERT INTO calls (dial, open) VALUES (?1, ?2)";

// ---- modems that are down

pub const SELECT_DOWN: &str = "SELECT modem FROM down WHERE modem = ?1";

pub const INSERT_DOWN: &str = "INSERT INTO down (modem) VALUES (?1)";

pub const DELETE_DOWN: &str = "DELETE FROM down WHERE modem = ?1";

// ---- kept replies

pub const SELECT_REPLY: &str =
    "SELECT said, status, body FROM replies WHERE client = ?1 AND number = ?2";

pub const INSERT_REPLY: &str =
    "INSERT INTO replies (client, number, said, status, body) VALUES (?1, ?2, ?3, ?4, ?5)";

pub const DELETE_REPLIES: &str = "DELETE FROM replies WHERE client = ?1 AND number <= ?2";

// The hundredth of them. The unique index has all that it asks, and in its order.
pub const SELECT_HUNDREDTH: &str =
    "SELECT number FROM replies WHERE client = ?1 AND number <= ?2 ORDER BY number LIMIT 1 OFFSET 99";

// ---- floors

pub const SELECT_FLOOR: &str = "SELECT upto FROM floors WHERE client = ?1";

pub const DELETE_FLOOR: &str = "DELETE FROM floors WHERE client = ?1";

pub const INSERT_FLOOR: &str = "INSERT INTO floors (client, upto) VALUES (?1, ?2)";

// ---- the clock and the next numbers

pub const SELECT_META: &str = "SELECT clock, next_job, next_grant FROM meta WHERE one = 1";

pub const UPDATE_META: &str =
    "UPDATE meta SET clock = ?1, next_job = ?2, next_grant = ?3 WHERE one = 1";

// ---- a database that is found

pub const SELECT_VERSION: &str = "SELECT version FROM meta";

pub const UPDATE_VERSION: &str = "UPDATE meta SET version = 3";

pub const SELECT_LOST: &str =
    "SELECT holds.id FROM holds LEFT JOIN jobs ON jobs.job = holds.job WHERE jobs.job IS NULL";

pub const SELECT_PHASES: &str = "SELECT job, phase FROM jobs";

/// The closed grants of jobs that were taken out from outside, before the queue could purge.
pub const SELECT_STRAYS: &str =
    "SELECT grants.id FROM grants LEFT JOIN jobs ON jobs.job = grants.job WHERE jobs.job IS NULL";

pub const DELETE_GRANT: &str = "DELETE FROM grants WHERE id = ?1";

pub const SELECT_HELD: &str = "SELECT job FROM holds";

pub const SELECT_HOLDERS: &str = "SELECT modem FROM holds";

pub const SELECT_DIAL: &str = "SELECT dial FROM jobs WHERE job = ?1";
