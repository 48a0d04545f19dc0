//! The lines of posts, put into a sink in pieces.
ghost use Rattle.std.specs.Prelude.{◌≡◌, ◌++◌, [], OnOk, string_bytes};
ghost use Rattle.adx_io.specs.Talk.{HasCauses};
ghost use Rattle.adx_io.specs.TalkState.{place_of, state_of};
ghost use Rattle.history_runs.specs.Putting.{PutsBytes, PutsPiece};
ghost use Rattle.command_notices.specs.PostLines.{kind_word, post_line, post_lines};

use adx_io::{Sink, Source, Stop, Talk};
use adx_units::OutOfMemory;
use outbox::{Post, PostKind};

/// So many bytes are gathered before they are put.
const PIECE: usize = 65_536;

/// The word of a kind of post.
fn word_of(kind: PostKind) -> &'static str
    ensures { result.now ≡ kind_word kind }
{
    match kind {
        PostKind::Nurl => "nurl",
        PostKind::Burl => "burl",
        PostKind::Lurl => "lurl",
    }
}

/// Writes a text as it is.
fn push(out: &mut String, text: &str) -> Result<(), OutOfMemory>
    ensures { OnOk result (string_bytes out.new ≡ string_bytes out.old ++ text.now) }
{
    out.push_str(text)?;
    Ok(())
}

/// Writes the line of a post.
fn push_post(out: &mut String, post: &Post) -> Result<(), OutOfMemory>
    ensures { OnOk result (string_bytes out.new ≡ string_bytes out.old ++ post_line post.now) }
{
    push(out, word_of(post.kind))?;
    push(out, " ")?;
    push(out, post.url.as_str())?;
    push(out, "\n")
}

/// Puts what was written once it is a piece.
fn put_piece<S: Source, K: Sink>(talk: &mut Talk<'_, S, K>) -> Result<(), Stop>
    ensures puts { PutsPiece (state_of talk.old).held (state_of talk.new).held (state_of talk.old).out (state_of talk.new).out result }
    ensures rest { talk.new.source ≡ talk.old.source }
    ensures causes { HasCauses (state_of talk.old) (state_of talk.new) result }
    ensures same { place_of talk.new ≡ place_of talk.old }
{
    if talk.out.len() < PIECE {
        return Ok(());
    }
    talk.put_out()
}

/// Writes the line of a post, and puts what was written once it is a piece.
fn put_post<S: Source, K: Sink>(post: &Post, talk: &mut Talk<'_, S, K>) -> Result<(), Stop>
    ensures puts { PutsPiece (state_of talk.old).held (state_of talk.new).held ((state_of talk.old).out ++ post_line post.now) (state_of talk.new).out result }
    ensures rest { talk.new.source ≡ talk.old.source }
    ensures causes { HasCauses (state_of talk.old) (state_of talk.new) result }
    ensures same { place_of talk.new ≡ place_of talk.old }
{
    match push_post(talk.out, post) {
        Ok(()) => put_piece(talk),
        Err(_) => Err(Stop::OutOfMemory),
    }
}

/// Puts the lines of posts into the sink, in pieces. Nothing is asked of the source.
pub(crate) fn put_posts<S: Source, K: Sink>(
    posts: &[Post],
    talk: &mut Talk<'_, S, K>,
) -> Result<(), Stop>
    requires unwritten { (state_of talk.old).out ≡ [] }
    ensures puts { PutsBytes (K.held talk.old.sink.now) (K.held talk.new.sink.now) (post_lines posts.now) result }
    ensures rest { talk.new.source ≡ talk.old.source }
    ensures causes { HasCauses (state_of talk.old) (state_of talk.new) result }
    ensures same { place_of talk.new ≡ place_of talk.old }
{
    for post in posts {
        match put_post(post, talk) {
            Ok(()) => {}
            Err(stop) => return Err(stop),
        }
    }
    talk.put_out()
}
