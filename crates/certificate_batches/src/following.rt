//! A text of certificates is followed as long as it is the one that the search would write: then its blocks needn't be read, since
//! the trees that they spell are known, and known to be valid.

ghost use Rattle.std.specs.Prelude.{◌≡◌, ◌+◌, ◌<◌, ◌^◌, length, true, false, None, Some, IfOk, OnOk, IfSome};
ghost use Rattle.shared_search.specs.Books.{Knows, IsThere, tree_in};
ghost use Rattle.certificate_batches.specs.Claims.{setting_of, conditions_of, MayBeChecked};
ghost use Rattle.certificate_batches.specs.declared.claims.Claims.{Claims};
ghost use Rattle.certificate_batches.specs.Following.{last_line, IsProof, IsExpected, IsSheet, IsFollowing, IsFollower, IsCompared};

use crate::Claims;
use crate::passing::{Compared, compare};
use crate::sheet::{Sheet, empty_sheet, write_line};
use cert_text::CertReader;
use control_states::Components;
use linear_prover::look_at_condition;
use search_blocks::laws::found_are_written;
use search_laws::laws::certificates_are_valid;
use shared_search::{Book, find};
use st_memory::Memory;
use std::alloc::Global;

/// At most so many lists of conjuncts are searched for a condition, as many as `prove` searches, so that its texts are followed.
const MOST_LISTS: u32 = 100_000;

/// The book of the search, and what was written by it.
#[derive(Drop)]
pub struct Follower {
    alloc: Global,
    /// None once the text is another, or nothing is found to be written.
    book: Option<Book>,
    sheet: Sheet,
    /// The place of the condition whose line was written last.
    place: Option<usize>,
}

/// Does nothing but let a caller know that there are fewer than 2^32 components: their count is a number of 32 bits.
fn look_at_components(components: &Components)
    ensures { length components.now.components < 2 ^ 32 }
{
    let _count = components.count();
}

/// The number of the certificate that the search over lists finds for the condition at a place.
fn found(
    alloc: Global,
    book: &mut Book,
    claims: &Claims<'_>,
    place: usize,
) -> Result<Option<u32>, Memory>
    requires may { MayBeChecked claims.now }
    requires place { place < length (conditions_of claims.now) }
    requires knows { Knows (setting_of claims.now) book.old }
    ensures knows { Knows (setting_of claims.now) book.new }
    ensures found { IfOk result (λ o. IfSome o (λ n. IsThere book.new n × IsProof (setting_of claims.now) (conditions_of claims.now) place (tree_in book.new n))) }
{
    certificates_are_valid();
    found_are_written();
    look_at_components(claims.components);
    let condition = &claims.conditions[place];
    look_at_condition(condition);
    find(
        alloc,
        book,
        claims.components,
        claims.variables,
        condition,
        MOST_LISTS,
    )
}

impl Follower {
    /// A follower that has written nothing.
    pub fn new(alloc: Global, claims: &Claims<'_>) -> Result<Follower, Memory>
        ensures { IfOk result (IsFollower claims.now) }
    {
        let book = Book::new(alloc, claims.components, claims.variables)?;
        Ok(Follower {
            alloc,
            book: Some(book),
            sheet: empty_sheet(alloc),
            place: None,
        })
    }

    /// Whether the line of the condition at a place is the last that was written.
    fn is_made(&self, place: usize) -> bool
        ensures { result ≡ true → self.now.place ≡ Some place }
    {
        match self.place {
            Some(made) => made == place,
            None => false,
        }
    }

    /// Writes the line of the condition at a place, unless it is written. Answers false where there is none.
    fn expect(&mut self, book: &mut Book, claims: &Claims<'_>, place: usize) -> Result<bool, Memory>
        requires may { MayBeChecked claims.now }
        requires place { place < length (conditions_of claims.now) }
        requires following { IsFollowing claims.now self.old book.old }
        ensures none { self.new.book ≡ self.old.book }
        ensures following { IfOk result (λ yes. yes ≡ true → IsFollowing claims.now self.new book.new × (self.new.place ≡ Some place)) }
    {
        if self.is_made(place) {
            return Ok(true);
        }
        let Some(root) = found(self.alloc, book, claims, place)? else {
            return Ok(false);
        };
        self.place = Some(place);
        write_line(self.alloc, &mut self.sheet, &book.memo.trees, place, root)
    }

    /// Goes on with the book, or lets it and the sheet go.
    fn keep(&mut self, book: Book, compared: Compared)
        requires { self.old.book ≡ None }
        ensures { (claims : Claims) → IsFollowing claims self.old book → IsFollower claims self.new }
    {
        match compared {
            Compared::Same => {
                self.book = Some(book);
            }
            Compared::Short => {
                self.book = Some(book);
            }
            Compared::Other => {
                self.sheet = empty_sheet(self.alloc);
            }
        }
    }

    /// Compares what a reader holds with the line of the condition at a place, and takes it where it begins with that line. `open`
    /// says that more of the text may come. Another text is followed no more.
    pub fn follow(
        &mut self,
        claims: &Claims<'_>,
        reader: &mut CertReader,
        place: usize,
        is_open: bool,
    ) -> Result<Compared, Memory>
        requires may { MayBeChecked claims.now }
        requires place { place < length (conditions_of claims.now) }
        requires follower { IsFollower claims.now self.old }
        requires number { reader.old.number ≡ place + 1 }
        requires unended { is_open ≡ true → reader.old.finished ≡ false }
        ensures follower { OnOk result (IsFollower claims.now self.new) }
        ensures compared { IfOk result (IsCompared (setting_of claims.now) (conditions_of claims.now) place reader.old reader.new) }
    {
        let Some(mut book) = self.book.take() else {
            return Ok(Compared::Other);
        };
        if !self.expect(&mut book, claims, place)? {
            self.sheet = empty_sheet(self.alloc);
            return Ok(Compared::Other);
        }
        let compared = compare(reader, &self.sheet.text[self.sheet.start..], place, is_open);
        self.keep(book, compared);
        Ok(compared)
    }
}
