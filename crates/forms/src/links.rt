//! The addresses that the actions of a batch lead to (Git LFS API, Batch).

ghost use Rattle.std.specs.Prelude.{◌≡◌, IfOk, string_bytes};
ghost use Rattle.names.specs.Names.{repo_text, ref_text};
ghost use Rattle.model.specs.Batch.{lfs_href, ref_query};
ghost use Rattle.forms.specs.Offers.{AreTextsOf};

use crate::offers::Links;
use form_urlencoded::byte_serialize;
use names::{RefName, RepoName};
use std::alloc::{AllocError, Global};

/// The texts that the actions of a batch are made of.
#[derive(Drop)]
pub(crate) struct LinkTexts {
    /// The address of an object's content, up to the object's name.
    pub(crate) content: String,
    /// The address at which an upload is verified, with its query.
    pub(crate) verify: String,
    /// The ref, as a query.
    pub(crate) query: String,
    /// The value of the header field with the token.
    pub(crate) authorization: String,
    /// How many seconds the token is valid.
    pub(crate) expires_in: u64,
}

/// The texts of these links.
pub(crate) fn texts_of(alloc: Global, links: &Links<'_>) -> Result<LinkTexts, AllocError>
    ensures { IfOk result (λ texts. AreTextsOf texts links.now) }
{
    let query = ref_query(alloc, links.ref_name)?;
    let mut content = lfs_href(alloc, links.base, links.repo)?;
    content.push_str("/content/")?;
    let mut verify = lfs_href(alloc, links.base, links.repo)?;
    verify.push_str("/verify")?;
    verify.push_str(query.as_str())?;
    let token = links.token;
    let authorization = format!(in alloc; "Bearer {token}")?;
    Ok(LinkTexts {
        content,
        verify,
        query,
        authorization,
        expires_in: links.expires_in,
    })
}

/// The address of a repository's routes.
fn lfs_href(alloc: Global, base: &str, repo: &RepoName) -> Result<String, AllocError>
    ensures { IfOk result (λ href. string_bytes href ≡ lfs_href base.now (repo_text repo.now)) }
{
    let name = repo.as_str();
    format!(in alloc; "{base}/{name}.git/info/lfs")
}

/// The ref, as the query of an address.
fn ref_query(alloc: Global, ref_name: &RefName) -> Result<String, AllocError>
    ensures { IfOk result (λ query. string_bytes query ≡ ref_query (ref_text ref_name.now)) }
{
    let mut query = String::from_str(alloc, "?ref=")?;
    for piece in byte_serialize(ref_name.as_str().as_bytes()) {
        query.push_str(piece)?;
    }
    Ok(query)
}
