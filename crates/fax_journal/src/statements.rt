//! The statements of a journal, as texts in SQL.

pub(crate) const CREATE_JOURNAL: &str = "CREATE TABLE journal (one INTEGER PRIMARY KEY NOT NULL, \
    client TEXT NOT NULL, last_number INTEGER NOT NULL, unanswered INTEGER NOT NULL, \
    number INTEGER NOT NULL, path TEXT NOT NULL, body BLOB NOT NULL, keyed INTEGER NOT NULL, \
    answer_key TEXT NOT NULL, holds INTEGER NOT NULL, grant_id INTEGER NOT NULL, \
    job INTEGER NOT NULL, dial TEXT NOT NULL, first_page INTEGER NOT NULL, \
    last_page INTEGER NOT NULL, call INTEGER NOT NULL, pages INTEGER NOT NULL, \
    CHECK (one = 1)) STRICT";

pub(crate) const CREATE_ANSWERS: &str =
    "CREATE TABLE answers (answer_key TEXT PRIMARY KEY NOT NULL, answer BLOB NOT NULL) STRICT";

pub(crate) const SELECT_ENTRY: &str = "SELECT client, last_number, unanswered, number, path, body, \
    keyed, answer_key, holds, grant_id, job, dial, first_page, last_page, call, pages FROM journal";

pub(crate) const SET_ENTRY: &str = "INSERT OR REPLACE INTO journal (one, client, last_number, \
    unanswered, number, path, body, keyed, answer_key, holds, grant_id, job, dial, first_page, \
    last_page, call, pages) VALUES (1, ?1, ?2, ?3, ?4, ?5, ?6, ?7, ?8, ?9, ?10, ?11, ?12, ?13, ?14, \
    ?15, ?16)";

pub(crate) const SELECT_ANSWER: &str = "SELECT answer FROM answers WHERE answer_key = ?1";

pub(crate) const SET_ANSWER: &str =
    "INSERT OR REPLACE INTO answers (answer_key, answer) VALUES (?1, ?2)";

pub(crate) const DELETE_ANSWER: &str = "DELETE FROM answers WHERE answer_key = ?1";
