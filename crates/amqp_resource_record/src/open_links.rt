//! Which control links of a record are open, by looking at every entry.

ghost use Rattle.std.specs.Prelude.{◌≡◌};
ghost use Rattle.std.specs.List.{list_any};
ghost use Rattle.amqp_resource_record.specs.Entries.{attaches, closes, is_attached};
ghost use Rattle.amqp_resource_record.specs.Links.{is_open, attached_count};

use crate::entry::Entry;
use crate::reply::Reply;
use crate::step::Step;

/// Whether the link with this number is open after these entries: one of them attached it, and none
/// ended or closed it.
///
/// Part 4 of the standard, section 4.1 (transactional messaging). It looks at every entry.
#[tactic(auto, unfolding(crate::specs::Links::is_open))]
pub fn is_open(entries: &[Entry], link: u64) -> bool
    ensures { result ≡ is_open entries.now link }
{
    has_attach_of(entries, link) && !has_close_of(entries, link)
}

/// How many links these entries attached, which is the number of the next link.
pub fn links_attached(entries: &[Entry]) -> usize
    ensures { result ≡ attached_count entries.now }
{
    let mut attached = 0;
    for entry in entries {
        if is_attach(entry) {
            attached += 1;
        }
    }
    attached
}

fn has_attach_of(entries: &[Entry], link: u64) -> bool
    ensures { result ≡ list_any (attaches link) entries.now }
{
    for entry in entries {
        if is_attach_of(entry, link) {
            return true;
        }
    }
    false
}

fn has_close_of(entries: &[Entry], link: u64) -> bool
    ensures { result ≡ list_any (closes link) entries.now }
{
    for entry in entries {
        if is_close_of(entry, link) {
            return true;
        }
    }
    false
}

fn is_attach(entry: &Entry) -> bool
    ensures { result ≡ is_attached entry.now.reply }
{
    matches!(entry.reply, Reply::Attached { .. })
}

fn is_attach_of(entry: &Entry, link: u64) -> bool
    ensures { result ≡ attaches link entry.now }
{
    match &entry.reply {
        Reply::Attached { link: attached, .. } => *attached == link,
        _ => false,
    }
}

fn is_close_of(entry: &Entry, link: u64) -> bool
    ensures { result ≡ closes link entry.now }
{
    match (&entry.step, &entry.reply) {
        (Step::LinkEnd { link: ended }, Reply::LinkEnded) => *ended == link,
        (Step::Control { link: closed, .. }, Reply::LinkClosed(_)) => *closed == link,
        _ => false,
    }
}
