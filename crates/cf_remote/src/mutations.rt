//! Requests that change items.

ghost use Rattle.std.specs.Prelude.{◌≡◌, ◌≤◌, ◌+◌, None, length};
ghost use Rattle.cf_model.specs.Store.{decide, make_dir, move_to, put_new, put_version, recorded_at, remove_at, version_told, why_move, why_new_dir, why_new_file, why_remove, why_version};
ghost use Rattle.cf_remote.specs.Stores.{Decides, Gives};

use crate::decisions::{latest_of, why_move, why_new_dir, why_new_file, why_remove, why_version};
use crate::outcomes::Outcome;
use crate::stored::StoredItem;
use crate::stores::Store;
use crate::tokens::Tokens;
use cf_base::{Blob, OutOfMemory, Reply, Rid, Token, Version, Why};

impl Store {
    pub(crate) fn put_new(
        &mut self,
        token: Token,
        parent: Rid,
        name: Blob,
        bytes: Blob,
    ) -> Result<Reply, OutOfMemory>
        requires name { length name ≤ 255 }
        requires new { recorded_at self.old.tokens token ≡ None }
        ensures { Decides token (put_new self.old parent name bytes) self.old result self.new }
    {
        let why = why_new_file(
            self.alloc,
            &self.shelf,
            parent,
            name.as_slice(),
            bytes.as_slice(),
        )?;
        match why {
            Some(why) => {
                drop(name);
                drop(bytes);
                self.refuse(token, why, Version(0))
            }
            None => self.add_file(token, parent, name, bytes),
        }
    }

    fn add_file(
        &mut self,
        token: Token,
        parent: Rid,
        name: Blob,
        bytes: Blob,
    ) -> Result<Reply, OutOfMemory>
        requires name { length name ≤ 255 }
        requires new { recorded_at self.old.tokens token ≡ None }
        requires accepted { why_new_file self.old parent name bytes ≡ None }
        ensures { Gives (decide self.old token (put_new self.old parent name bytes) None) self.old result self.new }
    {
        let clock = clock_after(self.clock, &self.tokens);
        let rid = self.shelf.next_rid();
        let item = StoredItem::file(self.alloc, rid, parent, name, bytes, clock)?;
        self.shelf.add(item, &mut self.tokens, token)?;
        self.clock = clock;
        Ok(Reply::Done {
            token,
            rid,
            version: Version(1),
        })
    }

    pub(crate) fn make_dir(
        &mut self,
        token: Token,
        parent: Rid,
        name: Blob,
    ) -> Result<Reply, OutOfMemory>
        requires name { length name ≤ 255 }
        requires new { recorded_at self.old.tokens token ≡ None }
        ensures { Decides token (make_dir self.old parent name) self.old result self.new }
    {
        match why_new_dir(self.alloc, &self.shelf, parent, name.as_slice())? {
            Some(why) => {
                drop(name);
                self.refuse(token, why, Version(0))
            }
            None => self.add_dir(token, parent, name),
        }
    }

    fn add_dir(&mut self, token: Token, parent: Rid, name: Blob) -> Result<Reply, OutOfMemory>
        requires name { length name ≤ 255 }
        requires new { recorded_at self.old.tokens token ≡ None }
        requires accepted { why_new_dir self.old parent name ≡ None }
        ensures { Gives (decide self.old token (make_dir self.old parent name) None) self.old result self.new }
    {
        let clock = clock_after(self.clock, &self.tokens);
        let rid = self.shelf.next_rid();
        let item = StoredItem::directory(self.alloc, rid, parent, name, clock);
        self.shelf.add(item, &mut self.tokens, token)?;
        self.clock = clock;
        Ok(Reply::Done {
            token,
            rid,
            version: Version(0),
        })
    }

    pub(crate) fn put_version(
        &mut self,
        token: Token,
        rid: Rid,
        expect: Version,
        bytes: Blob,
    ) -> Result<Reply, OutOfMemory>
        requires { recorded_at self.old.tokens token ≡ None }
        ensures { Decides token (put_version self.old rid expect bytes) self.old result self.new }
    {
        match why_version(&self.shelf, rid, expect, bytes.as_slice(), self.keep) {
            Some(why) => {
                drop(bytes);
                let version = version_told(latest_of(&self.shelf, rid), why);
                self.refuse(token, why, version)
            }
            None => self.add_version(token, rid, expect, bytes),
        }
    }

    fn add_version(
        &mut self,
        token: Token,
        rid: Rid,
        expect: Version,
        bytes: Blob,
    ) -> Result<Reply, OutOfMemory>
        requires new { recorded_at self.old.tokens token ≡ None }
        requires accepted { why_version self.old rid expect bytes ≡ None }
        ensures { Gives (decide self.old token (put_version self.old rid expect bytes) None) self.old result self.new }
    {
        let clock = clock_after(self.clock, &self.tokens);
        let version = self
            .shelf
            .grow(rid, bytes, self.keep, clock, &mut self.tokens, token)?;
        self.clock = clock;
        Ok(Reply::Done {
            token,
            rid,
            version,
        })
    }

    pub(crate) fn move_to(
        &mut self,
        token: Token,
        rid: Rid,
        parent: Rid,
        name: Blob,
    ) -> Result<Reply, OutOfMemory>
        requires name { length name ≤ 255 }
        requires new { recorded_at self.old.tokens token ≡ None }
        ensures { Decides token (move_to self.old rid parent name) self.old result self.new }
    {
        match why_move(self.alloc, &self.shelf, rid, parent, name.as_slice())? {
            Some(why) => {
                drop(name);
                self.refuse(token, why, Version(0))
            }
            None => self.place(token, rid, parent, name),
        }
    }

    fn place(
        &mut self,
        token: Token,
        rid: Rid,
        parent: Rid,
        name: Blob,
    ) -> Result<Reply, OutOfMemory>
        requires name { length name ≤ 255 }
        requires new { recorded_at self.old.tokens token ≡ None }
        requires accepted { why_move self.old rid parent name ≡ None }
        ensures { Gives (decide self.old token (move_to self.old rid parent name) None) self.old result self.new }
    {
        let clock = clock_after(self.clock, &self.tokens);
        let version = latest_of(&self.shelf, rid);
        self.shelf
            .place(rid, parent, name, clock, &mut self.tokens, token)?;
        self.clock = clock;
        Ok(Reply::Done {
            token,
            rid,
            version,
        })
    }

    pub(crate) fn remove(
        &mut self,
        token: Token,
        rid: Rid,
        expect: Version,
    ) -> Result<Reply, OutOfMemory>
        requires { recorded_at self.old.tokens token ≡ None }
        ensures { Decides token (remove_at self.old rid expect) self.old result self.new }
    {
        match why_remove(&self.shelf, rid, expect) {
            Some(why) => {
                let version = version_told(latest_of(&self.shelf, rid), why);
                self.refuse(token, why, version)
            }
            None => self.end(token, rid, expect),
        }
    }

    fn end(&mut self, token: Token, rid: Rid, expect: Version) -> Result<Reply, OutOfMemory>
        requires new { recorded_at self.old.tokens token ≡ None }
        requires accepted { why_remove self.old rid expect ≡ None }
        ensures { Gives (decide self.old token (remove_at self.old rid expect) None) self.old result self.new }
    {
        let clock = clock_after(self.clock, &self.tokens);
        let version = latest_of(&self.shelf, rid);
        self.tokens.record(token, Outcome::Done { rid, version })?;
        self.shelf.end(rid, clock);
        self.clock = clock;
        Ok(Reply::Done {
            token,
            rid,
            version,
        })
    }
}

/// The version is told at a Conflict alone.
fn version_told(version: Version, why: Why) -> Version
    ensures { result ≡ version_told version why }
{
    match why {
        Why::Conflict => version,
        _ => Version(0),
    }
}

/// The next clock. The clock is not above the number of tokens, so there is one.
fn clock_after(clock: u64, tokens: &Tokens) -> u64
    requires { clock ≤ length tokens.now }
    ensures { result ≡ clock + 1 }
{
    clock.min(tokens.len() as u64) + 1
}
