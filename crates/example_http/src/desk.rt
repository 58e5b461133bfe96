//! The sessions as a service of HTTP, with JSON bodies.
//!
//!     POST /sessions            opens the session of the body, and closes those with its number, token or peer: 201
//!     GET /sessions             all sessions: 200
//!     GET /sessions/TOKEN       the session with this token: 200, or 404
//!     DELETE /sessions/TOKEN    closes it: 204, or 404
//!
//! A HEAD is answered as a GET, without the body. TOKEN is a number without a sign and without zeros before it: any other path is
//! answered by 404. A body that is no session is answered by 400, another method at such a path by 405, which lists the methods that
//! there are. A request for which there is no memory is answered by 503, and the sessions are as they were.
ghost use Rattle.std.specs.Prelude.{◌≡◌, ◌≢◌, ◌==◌, ◌<◌, ◌^◌, ◌∷◌, ℕ, Some, None, IfOk, IfSome, IfNone, IsTrue, IsPermutation, OnOk, OnErr};
ghost use Rattle.example_http.specs.Answer.{IsAnswer, path_of};
ghost use Rattle.example_http.specs.declared.sessions.Session.{Session};
ghost use Rattle.http.specs.FieldValue.{is_visible_text};
ghost use Rattle.http.specs.Request.{head_of};
ghost use Rattle.iddqd_tri.specs.Bag.{IsOnly, with_item};
ghost use Rattle.iddqd_tri.specs.Map.{bag};

use crate::sessions::{Session, Sessions, by_token, close, open};
use bytes::{BufMut, Bytes};
use http::header::{ALLOW, HeaderValue};
use http::{Method, Request, StatusCode};
use http_server::{Response, Service};
use iddqd_tri::Ranked;
use std::alloc::{AllocError, Global};

/// The sessions, and the memory for what is answered.
#[derive(Drop)]
pub struct Desk {
    pub sessions: Sessions,
    pub alloc: Global,
}

impl Service for Desk {
    // `IsAnswer` says what the status means for the sessions, and which of them was closed. No clause says which session a body
    // has, since the contracts of `serde` say nothing of what a derived type reads or writes.
    ghost answers = { λ old request response new.
        IsAnswer ⟦<Session as Ranked>⟧.ranks old.sessions new.sessions (head_of request) response.status };

    fn call(
        &mut self,
        request: &Request<Bytes>,
        response: &mut Response,
    ) -> Result<(), AllocError> {
        if answer(self.alloc, &mut self.sessions, request, response).is_err() {
            response.clear();
            response.status = StatusCode::SERVICE_UNAVAILABLE;
        }
        Ok(())
    }
}

/// Answers a request. If there is no memory for it, the sessions are as they were.
fn answer(
    alloc: Global,
    sessions: &mut Sessions,
    request: &Request<Bytes>,
    response: &mut Response,
) -> Result<(), AllocError>
    ensures ok { OnOk result (IsAnswer ⟦<Session as Ranked>⟧.ranks sessions.old sessions.new (head_of request.now) response.new.status) }
    ensures err { OnErr result (sessions.new ≡ sessions.old) }
{
    let path = request.uri().path();
    let method = request.method();
    let is_read = *method == Method::GET || *method == Method::HEAD;
    if path == "/sessions" {
        if *method == Method::POST {
            return answer_open(alloc, sessions, request.body(), response);
        }
        if is_read {
            return answer_list(alloc, sessions, response);
        }
        return answer_method(response, "GET, HEAD, POST");
    }
    let Some(token) = token_of(alloc, path)? else {
        response.status = StatusCode::NOT_FOUND;
        return Ok(());
    };
    if is_read {
        return answer_one(alloc, sessions, token, response);
    }
    if *method == Method::DELETE {
        answer_close(sessions, token, response);
        return Ok(());
    }
    answer_method(response, "GET, HEAD, DELETE")
}

/// Returns the token whose path this is.
fn token_of(alloc: Global, path: &str) -> Result<Option<u64>, AllocError>
    ensures its { IfOk result (λ found. IfSome found (λ token. (token < 2 ^ 64) × (path.now ≡ path_of token))) }
    ensures none { IfOk result (λ found. IfNone found ((token : ℕ) → token < 2 ^ 64 → path.now ≢ path_of token)) }
{
    let Some(word) = path.strip_prefix("/sessions/") else {
        return Ok(None);
    };
    let Ok(token) = word.parse::<u64>() else {
        return Ok(None);
    };
    // `parse` takes `+77` and `0077` too.
    if token.to_string(alloc)?.as_str() != word {
        return Ok(None);
    }
    Ok(Some(token))
}

/// Answers a method that there is not at a path.
fn answer_method(response: &mut Response, methods: &'static str) -> Result<(), AllocError>
    requires { IsTrue (is_visible_text methods.now) }
    ensures { response.new.status ≡ 405 }
{
    response.status = StatusCode::METHOD_NOT_ALLOWED;
    response.add_header(ALLOW, HeaderValue::from_static(methods))
}

/// Opens the session of a body.
fn answer_open(
    alloc: Global,
    sessions: &mut Sessions,
    body: &[u8],
    response: &mut Response,
) -> Result<(), AllocError>
    ensures opened { OnOk result (response.new.status ≡ 201 → (s : Session) × IsPermutation (bag sessions.new)
        (with_item ⟦<Session as Ranked>⟧.ranks (bag sessions.old) s)) }
    ensures unchanged { OnOk result (response.new.status ≢ 201 → sessions.new ≡ sessions.old) }
    ensures no_close { OnOk result (response.new.status ≢ 204) }
    ensures err { OnErr result (sessions.new ≡ sessions.old) }
{
    match serde_json::from_slice::<Session>(alloc, body) {
        Ok(session) => match open(sessions, session) {
            Ok(closed) => {
                drop(closed);
                response.status = StatusCode::CREATED;
                Ok(())
            }
            Err(_) => Err(AllocError),
        },
        Err(error) => {
            if error.is_memory() {
                return Err(AllocError);
            }
            response.status = StatusCode::BAD_REQUEST;
            Ok(())
        }
    }
}

/// Closes the session with this token.
fn answer_close(sessions: &mut Sessions, token: u64, response: &mut Response)
    ensures closed { response.new.status ≡ 204 → (s : Session) × IsOnly (λ t. token == t.token) (bag sessions.old) (Some s)
        × IsPermutation (bag sessions.old) (s ∷ bag sessions.new) }
    ensures missing { response.new.status ≡ 404 → IsOnly (λ s. token == s.token) (bag sessions.old) None }
    ensures unchanged { response.new.status ≢ 204 → sessions.new ≡ sessions.old }
    ensures plain { (response.new.status ≢ 200) × (response.new.status ≢ 201) }
{
    match close(sessions, token) {
        Some(closed) => {
            drop(closed);
            response.status = StatusCode::NO_CONTENT;
        }
        None => response.status = StatusCode::NOT_FOUND,
    }
}

/// Shows the session with this token.
fn answer_one(
    alloc: Global,
    sessions: &Sessions,
    token: u64,
    response: &mut Response,
) -> Result<(), AllocError>
    ensures found { OnOk result (response.new.status ≡ 200
        → (s : Session) × IsOnly (λ t. token == t.token) (bag sessions.now) (Some s)) }
    ensures missing { OnOk result (response.new.status ≡ 404 → IsOnly (λ s. token == s.token) (bag sessions.now) None) }
    ensures plain { OnOk result ((response.new.status ≢ 201) × (response.new.status ≢ 204)) }
{
    match by_token(sessions, token) {
        Some(session) => {
            let Ok(text) = serde_json::to_vec(alloc, session) else {
                return Err(AllocError);
            };
            response.status = StatusCode::OK;
            response.body.put_slice(text.as_slice())
        }
        None => {
            response.status = StatusCode::NOT_FOUND;
            Ok(())
        }
    }
}

/// Shows all sessions, by their numbers.
fn answer_list(
    alloc: Global,
    sessions: &Sessions,
    response: &mut Response,
) -> Result<(), AllocError>
    ensures plain { OnOk result ((response.new.status ≢ 201) × (response.new.status ≢ 204)) }
{
    let mut list: Vec<&Session> = sessions.iter().collect(alloc)?;
    list.sort_by_key(|session| session.id)?;
    let Ok(text) = serde_json::to_vec(alloc, &list) else {
        return Err(AllocError);
    };
    response.status = StatusCode::OK;
    response.body.put_slice(text.as_slice())
}
