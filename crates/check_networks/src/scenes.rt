//! What tests make of a described network: each scene tells whether all is as it has to be. A test that names its
//! description and its scene owns nothing.
use crate::audits::{Audited, is_audited, is_audited_in_time};
use crate::cycles;
use crate::networks::{Compared, compares, is_copied};
use crate::regions::{self, joins, runs};
use kpn_net::Network;
use kpn_text::read_network;
use std::alloc::Global;
use std::process::Abort;
use std::test::Fail;

/// What is asked of a network, by the function that says so.
#[derive(Clone, Copy)]
pub enum Scene<'a> {
    Compares(Compared<'a>),
    FindAll(&'a [cycles::Row<'a>]),
    IsAudited(&'a Audited<'a>),
    IsAuditedInTime,
    IsCopied(&'a str),
    /// How much was read, is unread and ever was, of each channel.
    Joins(&'a regions::Row<'a>, &'a [(usize, usize, usize)]),
    Runs(&'a regions::Row<'a>),
}

/// Whether all is as it has to be with a described network.
pub fn plays(rt: &impl Abort, alloc: Global, text: &str, scene: Scene<'_>) -> Result<bool, Fail> {
    let document = read_network(alloc, text.as_bytes())?;
    let is_so = plays_on(rt, alloc, document.network(), scene);
    drop(document);
    is_so
}

fn plays_on(
    rt: &impl Abort,
    alloc: Global,
    network: &Network,
    scene: Scene<'_>,
) -> Result<bool, Fail> {
    Ok(match scene {
        Scene::Compares(with) => compares(alloc, network, with)?,
        Scene::FindAll(rows) => cycles::find_all(rt, alloc, network, rows)?,
        Scene::IsAudited(audited) => is_audited(alloc, network, audited)?,
        Scene::IsAuditedInTime => is_audited_in_time(alloc, network)?,
        Scene::IsCopied(text) => is_copied(alloc, network, text)?,
        Scene::Joins(row, counts) => joins(rt, alloc, network, row, counts)?,
        Scene::Runs(row) => runs(alloc, network, row)?,
    })
}
