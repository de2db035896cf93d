//! Laws of sessions. Each is the contract of a function that makes no call.

ghost use Rattle.language_session.specs.Laws.{AnsweredOnce, DocumentsAreTold, EachIsPublished, PublishedIsRead};

/// The documents of a session are those that the client's messages give; what is published of one is that of its text, and
/// each change of a text is published.
pub fn published_is_read()
    ensures documents { DocumentsAreTold }
    ensures published { PublishedIsRead }
    ensures each { EachIsPublished }
{}

/// Each request is answered once, in order.
pub fn requests_are_answered_once()
    ensures { AnsweredOnce }
{}
