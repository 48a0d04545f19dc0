//! Posts that are put behind the pending ones.
ghost use Rattle.std.specs.Prelude.{◌≡◌, ◌++◌, OnOk, OnErr, Some, None};
ghost use Rattle.notice_macros.specs.Expansion.{url_expansion};
ghost use Rattle.outbox.specs.declared.post.PostKind.{PostKind as Kind};
ghost use Rattle.outbox.specs.Posts.{post_of};
ghost use Rattle.outbox.specs.Rows.{row_values};

use crate::post::{Post, PostKind};
use crate::row::Row;
use adx_units::{OutOfMemory, Text, Units};
use notice_macros::{Values, expand_url};
use std::alloc::Global;

/// Adds the post of a URL, unless the URL is empty.
fn push_post(out: &mut Vec<Post>, place: u64, kind: PostKind, url: Text) -> Result<(), OutOfMemory>
    ensures more { OnOk result (out.new.items ≡ out.old.items ++ post_of place kind url) }
    ensures same { OnErr result (out.new.items ≡ out.old.items) }
{
    if url.as_bytes().is_empty() {
        return Ok(());
    }
    out.push(Post {
        entry: place,
        kind,
        url,
    })?;
    Ok(())
}

/// Adds the post that tells of a loss, by the values of its macros.
pub(crate) fn push_lurl(
    alloc: Global,
    out: &mut Vec<Post>,
    place: u64,
    lurl: &str,
    values: &Values<'_>,
) -> Result<(), OutOfMemory>
    ensures more { OnOk result (out.new.items ≡ out.old.items ++ post_of place PostKind.Lurl (url_expansion values.now lurl.now)) }
    ensures same { OnErr result (out.new.items ≡ out.old.items) }
{
    let url = expand_url(alloc, lurl, values)?;
    push_post(out, place, PostKind::Lurl, url)
}

/// Adds the post of one of a row's URLs, with a price or without one, and with the number of a loss.
pub(crate) fn push_notice(
    alloc: Global,
    out: &mut Vec<Post>,
    place: u64,
    kind: PostKind,
    row: &Row,
    url: &str,
    price: Option<Units>,
    loss: u16,
) -> Result<(), OutOfMemory>
    ensures more { OnOk result (out.new.items ≡ out.old.items
        ++ post_of place kind (url_expansion (row_values row.now price loss) url.now)) }
    ensures same { OnErr result (out.new.items ≡ out.old.items) }
{
    let url = row.url(alloc, url, price, loss)?;
    push_post(out, place, kind, url)
}
