//! Replies: a status, what kind of body they have, and the body's bytes.

ghost use Rattle.std.specs.Prelude.{◌≡◌, IfOk, IsOk, false, true};
ghost use Rattle.fax_ask.specs.Answer.{told};
ghost use Rattle.fax_ask.specs.Detail.{has_detail, keys_in, refusal_in};
ghost use Rattle.fax_ask.specs.ReplyBody.{body_bytes, body_is_json};
ghost use Rattle.fax_ask.specs.Response.{IsAcceptedStatus, accepted_response, kept_response, refused_body, refused_response};
ghost use Rattle.fax_ask.specs.declared.detail.Detail.TheVariants.{Body as OfBody};
ghost use Rattle.fax_core.specs.Reply.{NoKeys};
ghost use Rattle.fax_job.specs.Refusal.{refusal_status};
ghost use Rattle.fax_job.specs.declared.refusal.BodyFault.{BodyFault};

use crate::answer::Answer;
use crate::detail::Detail;
use crate::spelling::{
    ShortText, called_text, confirmed_text, fault_text, floored_text, given_text, held_text,
    marked_text, page_order_text, purged_text, refusal_text, rejected_text, stands_text,
    submitted_text,
};
use fax_job::Refusal;
use http::StatusCode;
use std::alloc::{AllocError, Global};
use std::marker::Model;

/// The answer to one request.
pub struct Reply {
    status: StatusCode,
    body: Body,
}

// By hand, so that a proof lets it go in one step.
impl Drop for Reply {
    fn drop(self) {
        let Reply { status: _, body: _ } = self;
    }
}

/// A body: JSON in room of its own or in memory, or a text of key lines or of a listing.
#[derive(Drop)]
enum Body {
    Short(ShortText),
    Made(String),
    Kept(Vec<u8>),
    Text(Vec<u8>),
}

impl Model for Reply {
    ghost use Rattle.fax_ask.specs.Response.{Response};

    ghost Value = { Response };

    ghost use Rattle.fax_ask.specs.ReplyBody.{body_bytes, body_is_json};

    ghost view = { λ r. record {
      status = r.status;
      is_json = body_is_json r.body;
      body = body_bytes r.body;
    } };
}

impl Reply {
    /// The reply to an accepted request: status 201 where a job was made, else 200.
    pub fn accepted(alloc: Global, answer: &Answer<'_>) -> Result<Reply, AllocError>
        ensures { IfOk result (λ reply. reply ≡ accepted_response (told answer.now)) }
    {
        let body = accepted_body(alloc, answer)?;
        Ok(Reply {
            status: accepted_status(answer),
            body,
        })
    }

    /// The reply to a refused request. It takes no memory.
    pub fn refused(refusal: Refusal) -> Reply
        requires { has_detail refusal ≡ false }
        ensures { result ≡ refused_response refusal NoKeys }
    {
        Reply {
            status: refused_status(refusal),
            body: Body::Short(refusal_text(refusal)),
        }
    }

    /// The reply to a refused request of which more is told.
    pub fn refused_with(alloc: Global, detail: &Detail<'_>) -> Result<Reply, AllocError>
        ensures reply { IfOk result (λ reply.
            reply ≡ refused_response (refusal_in detail.now) (keys_in detail.now)) }
        // What is told of a body at fault takes no memory.
        ensures body { (fault : BodyFault) → detail.now ≡ OfBody fault → IsOk result }
    {
        let body = refused_body(alloc, detail)?;
        Ok(Reply {
            status: refused_status(refusal_of(detail)),
            body,
        })
    }

    /// The reply that was kept with an accepted request that changes something: its body is JSON. It
    /// takes no memory.
    #[tactic(auto, using(crate::proofs::ResponseLemmas::accepted_status))]
    pub fn kept(status: u16, body: Vec<u8>) -> Reply
        requires { IsAcceptedStatus status }
        ensures { result ≡ kept_response status body.items }
    {
        Reply {
            status: StatusCode::from_u16(status).unwrap(),
            body: Body::Kept(body),
        }
    }

    /// The status code (RFC 9110, section 15).
    pub fn status(&self) -> u16
        ensures { result ≡ self.now.status }
    {
        self.status.as_u16()
    }

    /// The same, as `http` has it.
    pub fn status_code(&self) -> StatusCode
        ensures { result ≡ self.now.status }
    {
        self.status
    }

    /// Whether the body is JSON (RFC 8259). Else it is key lines or a listing.
    pub fn is_json(&self) -> bool
        ensures { result ≡ self.now.is_json }
    {
        match &self.body {
            Body::Short(_) | Body::Made(_) | Body::Kept(_) => true,
            Body::Text(_) => false,
        }
    }

    /// The bytes of the body.
    pub fn body(&self) -> &[u8]
        ensures { result.now ≡ self.now.body }
    {
        match &self.body {
            Body::Short(text) => text.as_str().as_bytes(),
            Body::Made(text) => text.as_bytes(),
            Body::Kept(bytes) => bytes.as_slice(),
            Body::Text(bytes) => bytes.as_slice(),
        }
    }
}

fn accepted_status(answer: &Answer<'_>) -> StatusCode
    ensures { result ≡ (accepted_response (told answer.now)).status }
{
    match answer {
        Answer::Submitted { job: _ } | Answer::Brought { job: _, state: _ } => StatusCode::CREATED,
        _ => StatusCode::OK,
    }
}

fn accepted_body(alloc: Global, answer: &Answer<'_>) -> Result<Body, AllocError>
    ensures bytes { IfOk result (λ body.
        body_bytes body ≡ (accepted_response (told answer.now)).body) }
    ensures kind { IfOk result (λ body.
        body_is_json body ≡ (accepted_response (told answer.now)).is_json) }
{
    let text = match answer {
        Answer::Submitted { job } => submitted_text(alloc, *job)?,
        Answer::Brought { job, state } => stands_text(alloc, *job, *state)?,
        Answer::Stands { job, state } => stands_text(alloc, *job, *state)?,
        Answer::Marked { down } => marked_text(alloc, *down)?,
        Answer::NoneToSend => String::from_str(alloc, "{\"grant\":0}")?,
        Answer::Given(handed) => given_text(alloc, handed)?,
        Answer::Called { stop } => called_text(alloc, *stop)?,
        Answer::Confirmed { npages, stop } => confirmed_text(alloc, *npages, *stop)?,
        Answer::Floored { floor } => floored_text(alloc, *floor)?,
        Answer::Purged { jobs } => purged_text(alloc, *jobs)?,
        Answer::Lines(bytes) | Answer::Listing(bytes) => {
            return Ok(Body::Text(Vec::from_slice(alloc, bytes)?));
        }
    };
    Ok(Body::Made(text))
}

#[tactic(auto, using(crate::proofs::ResponseLemmas::refused_status))]
fn refused_status(refusal: Refusal) -> StatusCode
    ensures { result ≡ refusal_status refusal }
{
    StatusCode::from_u16(refusal.status()).unwrap()
}

fn refusal_of(detail: &Detail<'_>) -> Refusal
    ensures { result ≡ refusal_in detail.now }
{
    match detail {
        Detail::Body(fault) => Refusal::BadBody(*fault),
        Detail::Rejected { notice: _ } => Refusal::Rejected,
        Detail::Held {
            called: _,
            handed: _,
        } => Refusal::ModemBusy,
        Detail::PageOrder { npages: _ } => Refusal::PageOrder,
    }
}

fn refused_body(alloc: Global, detail: &Detail<'_>) -> Result<Body, AllocError>
    ensures bytes { IfOk result (λ body.
        body_bytes body ≡ refused_body (refusal_in detail.now) (keys_in detail.now)) }
    ensures kind { IfOk result (λ body. body_is_json body ≡ true) }
    ensures body { (fault : BodyFault) → detail.now ≡ OfBody fault → IsOk result }
{
    let text = match detail {
        Detail::Body(fault) => return Ok(Body::Short(fault_text(*fault))),
        Detail::Rejected { notice } => rejected_text(alloc, notice)?,
        Detail::Held { called, handed } => held_text(alloc, *called, handed)?,
        Detail::PageOrder { npages } => page_order_text(alloc, *npages)?,
    };
    Ok(Body::Made(text))
}
