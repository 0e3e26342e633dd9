//! Sessions.

ghost use Rattle.std.specs.Prelude.{◌≡◌, count_by, nat_le};
ghost use Rattle.std.specs.List.{list_all, list_any};
ghost use Rattle.mt_model.specs.texts.Config.{are_both_pase, are_sessions, have_one_fabric, have_one_session, is_cat_or_none, is_established, is_session, none_alike};

use crate::fabrics::are_equal;
use mt_model::limits::{CASE_SESSIONS, PASE_SESSIONS, ROOT_KEY_BYTES, SESSIONS};
use mt_model::{Auth, SessionRow};

/// Whether these may be the sessions of a configuration.
#[tactic(auto, unfolding(mt_model::specs::texts::Config::are_sessions))]
pub fn are_sessions(rows: &[SessionRow]) -> bool
    ensures { result ≡ are_sessions rows.now }
{
    rows.len() <= SESSIONS
        && are_all_sessions(rows)
        && sessions_differ(rows)
        && fabrics_have_few(rows)
        && few_are_pase(rows)
}

fn are_all_sessions(rows: &[SessionRow]) -> bool
    ensures { result ≡ list_all is_session rows.now }
{
    rows.iter().all(|row| is_session(row))
}

fn is_session(row: &SessionRow) -> bool
    ensures { result ≡ is_session row.now }
{
    1 <= row.session
        && 1 <= row.peer_session
        && 1 <= row.boot
        && is_established(row)
        && are_all_cats(&row.cats)
}

fn is_established(row: &SessionRow) -> bool
    ensures { result ≡ is_established row.now row.now.auth }
{
    match row.auth {
        Auth::Pase => {
            row.root_key.as_slice().len() == 0
                && row.fabric_id == 0
                && row.own_node == 0
                && row.peer_node == 0
        }
        Auth::Case => row.root_key.as_slice().len() == ROOT_KEY_BYTES,
        Auth::Group => false,
    }
}

fn are_all_cats(cats: &[u32]) -> bool
    ensures { result ≡ list_all is_cat_or_none cats.now }
{
    cats.iter().all(|cat| is_cat_or_none(*cat))
}

fn is_cat_or_none(cat: u32) -> bool
    ensures { result ≡ is_cat_or_none cat }
{
    cat == 0 || cat % 0x1_0000 != 0
}

#[tactic(auto, using(crate::proofs::Walks::apart_at))]
fn sessions_differ(rows: &[SessionRow]) -> bool
    ensures { result ≡ none_alike have_one_session rows.now }
{
    for (place, row) in rows.iter().enumerate() {
        if any_has_session(row, &rows[place + 1..]) {
            return false;
        }
    }
    true
}

fn any_has_session(row: &SessionRow, others: &[SessionRow]) -> bool
    ensures { result ≡ list_any (have_one_session row.now) others.now }
{
    others.iter().any(|other| have_one_session(row, other))
}

fn have_one_session(a: &SessionRow, b: &SessionRow) -> bool
    ensures { result ≡ have_one_session a.now b.now }
{
    a.boot == b.boot && a.session == b.session
}

fn fabrics_have_few(rows: &[SessionRow]) -> bool
    ensures { result ≡ list_all (λ row. nat_le (count_by (have_one_fabric row) rows.now) CASE_SESSIONS) rows.now }
{
    rows.iter().all(|row| fabric_has_few(row, rows))
}

fn fabric_has_few(row: &SessionRow, rows: &[SessionRow]) -> bool
    ensures { result ≡ nat_le (count_by (have_one_fabric row.now) rows.now) CASE_SESSIONS }
{
    rows.iter()
        .filter(|other| have_one_fabric(row, *other))
        .count()
        <= CASE_SESSIONS
}

fn have_one_fabric(a: &SessionRow, b: &SessionRow) -> bool
    ensures { result ≡ have_one_fabric a.now b.now }
{
    a.auth == Auth::Case
        && b.auth == Auth::Case
        && a.boot == b.boot
        && are_equal(&a.root_key, &b.root_key)
        && a.fabric_id == b.fabric_id
}

fn few_are_pase(rows: &[SessionRow]) -> bool
    ensures { result ≡ list_all (λ row. nat_le (count_by (are_both_pase row) rows.now) PASE_SESSIONS) rows.now }
{
    rows.iter().all(|row| boot_has_few(row, rows))
}

fn boot_has_few(row: &SessionRow, rows: &[SessionRow]) -> bool
    ensures { result ≡ nat_le (count_by (are_both_pase row.now) rows.now) PASE_SESSIONS }
{
    rows.iter()
        .filter(|other| are_both_pase(row, *other))
        .count()
        <= PASE_SESSIONS
}

fn are_both_pase(a: &SessionRow, b: &SessionRow) -> bool
    ensures { result ≡ are_both_pase a.now b.now }
{
    a.auth == Auth::Pase && b.auth == Auth::Pase && a.boot == b.boot
}
